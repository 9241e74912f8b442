// The bits of a flags word, bit 0 the lowest.
ghost use Rattle.std.specs.Prelude.{◌≡◌, ◌<◌};
ghost use Rattle.context.specs.Bits.{bit, bits};

// Whether bit `k` is set.
pub(super) fn bit(word: u32, k: u32) -> bool
    requires { k < 32 }
    ensures { result ≡ bit k word }
{
    (word >> k) % 2 == 1
}

// The number in the `n` bits from bit `k` on.
pub(super) fn bits(word: u32, k: u32, n: u32) -> u32
    requires k_in { k < 32 }
    requires n_in { n < 32 }
    ensures { result ≡ bits k n word }
{
    (word >> k) % (1 << n)
}
