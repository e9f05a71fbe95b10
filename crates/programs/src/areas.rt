// Memory to lend.
ghost use Rattle.std.specs.Prelude.{◌≡◌, length, replicate};

// N bytes, all the same. The contract has what lending them asks for, so that their length is worked out but once.
pub fn area<const N: usize>(fill: u8) -> [u8; N]
    ensures size { N ≡ length result }
    ensures value { result ≡ replicate N fill }
{
    [fill; N]
}
