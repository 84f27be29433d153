// The checksum of frames.
ghost use Rattle.std.specs.Prelude.{◌≡◌, ◌+◌, ◌%◌};
ghost use Rattle.std.specs.List.{sum_by};
ghost use Rattle.std.specs.Int.{from_le_bytes, w16};
ghost use Rattle.framing.specs.Checksum.{checksum};

const START: u16 = 0xB58C;

// The start value and some little-endian words, added modulo 65,536. A loop, as the clause of a fold would name the remainder at each step.
fn word_sum(words: &[[u8; 2]]) -> u16
    ensures { result ≡ (START + sum_by (from_le_bytes w16) words.now) % 65536 }
{
    let mut sum = START;
    for word in words {
        sum = sum.wrapping_add(u16::from_le_bytes(*word));
    }
    sum
}

// S of the bytes: the start value, their 16-bit little-endian words, and a last odd byte as a high byte, modulo 65,536.
#[tactic(auto, using(crate::proofs::Sums::even_sum, crate::proofs::Sums::odd_sum))]
pub fn checksum_of(bytes: &[u8]) -> u16
    ensures { result ≡ checksum bytes.now }
{
    let (words, rest) = bytes.as_chunks();
    let sum = word_sum(words);
    match rest {
        [last] => sum.wrapping_add(u16::from(*last) << 8),
        _ => sum,
    }
}
