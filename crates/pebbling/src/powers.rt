// Powers of two and bit lengths of numbers up to 2^21.
ghost use Rattle.std.specs.Prelude.{◌≤◌};
ghost use Rattle.pebbling.specs.Promises.{Power, Bits};

// 2 to the power k.
pub fn power(k: u32) -> u32
    requires { k ≤ 21 }
    ensures { Power k result }
{
    1 << k
}

// How many binary digits x has: none for 0.
pub fn bits(x: u32) -> u32
    ensures { Bits x result }
{
    u32::BITS - x.leading_zeros()
}
