ghost use Rattle.std.specs.Prelude.{◌≡◌};
ghost use Rattle.runtime.specs.Runtime.{tried};
ghost use Rattle.parent.specs.Chain.{chain_step, parent_step_of};

use crate::header::{ParentContext, read_context};
use runtime::SwiftRuntime;

// How many contexts of a type are given.
pub const CONTEXTS: usize = 256;

// A walk up the enclosing contexts: the address of the next one, and how many were given.
#[derive(Clone, Copy)]
pub struct ParentChain {
    pub next_descriptor_va: u64,
    pub given: usize,
}

// What a step of the walk gives: the next context, and the walk from there on.
#[derive(Clone, Copy)]
pub struct ParentStep {
    pub context: ParentContext,
    pub next: ParentChain,
}

impl ParentChain {
    // The walk that starts at a type's parent.
    pub fn starting_at(parent_va: u64) -> ParentChain
        ensures { (result.next_descriptor_va ≡ parent_va) × (result.given ≡ 0) }
    {
        ParentChain {
            next_descriptor_va: parent_va,
            given: 0,
        }
    }

    pub fn next(self, rt: &SwiftRuntime) -> Option<ParentStep>
        ensures { parent_step_of rt.now.image.now result ≡ chain_step rt.now.image.now (tried rt.now) self.next_descriptor_va self.given }
    {
        let given = self.given;
        if CONTEXTS <= given {
            return None;
        }
        let context = read_context(rt, self.next_descriptor_va)?;
        Some(ParentStep {
            context,
            next: ParentChain {
                next_descriptor_va: context.parent,
                given: given + 1,
            },
        })
    }
}
