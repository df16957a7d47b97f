// Draws: SplitMix64 (Steele, Lea, Flood 2014) as a hash, and a number from 0 up to 1 from it.
ghost use Rattle.std.specs.Prelude.{◌≡◌, ◌*◌, ◌%◌, ◌^◌};
ghost use Rattle.exact.specs.Random.{split_mix, uniform_of, drawn};

// The odd number nearest to 2^64 over the golden ratio, which each step adds to the state.
const GOLDEN_GAMMA: u64 = 0x9e37_79b9_7f4a_7c15;

// a * b, modulo 2^64.
pub fn wrapping_mul_u64(a: u64, b: u64) -> u64
    ensures { result ≡ (a * b) % 2 ^ 64 }
{
    a.wrapping_mul(b)
}

// The first output of SplitMix64 from the state z.
#[tactic(auto, unfolding(crate::specs::Random::split_mix, crate::specs::Random::mix))]
pub fn splitmix64(z: u64) -> u64
    ensures { result ≡ split_mix z }
{
    let s = z.wrapping_add(GOLDEN_GAMMA);
    let t = (s ^ (s >> 30)).wrapping_mul(0xbf58_476d_1ce4_e5b9);
    let u = (t ^ (t >> 27)).wrapping_mul(0x94d0_49bb_1331_11eb);
    u ^ (u >> 31)
}

// The upper 24 bits of h, over 2^24.
pub fn uniform(h: u64) -> f32
    ensures { result ≡ uniform_of h }
{
    (h >> 40) as f32 / 16777216.0
}

// A draw from the bits of the seed input, an event's serial and a salt.
pub fn rand01(seed: u32, serial: u64, salt: u64) -> f32
    ensures { result ≡ drawn seed serial salt }
{
    let salted = splitmix64(((seed as u64) << 32) ^ salt);
    uniform(splitmix64(salted ^ serial))
}
