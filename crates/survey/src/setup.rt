// The framings and formats of a survey, and the table of its register.
ghost use Rattle.std.specs.Prelude.{◌≡◌, replicate, IfOk};

use common::pair::Pair;
use format::sentence::SentenceFields;
use format::text::Text;
use framing::binary::Binary;
use framing::sentence::Sentence;
use register::entry::Entry;
use velocity::df3::Df3;
use velocity::df7::Df7;

// Binary frames, then sentences.
pub type Framings = Pair<Binary, Sentence>;

// Velocity records, then string records and sentences.
pub type RecordFormats = Pair<Pair<Df3, Df7>, Pair<Text, SentenceFields>>;

// How many entries a register holds.
pub const ENTRIES: usize = 3968;

// How long the space for a record is.
pub const SPACE: usize = 8192;

pub fn both_framings() -> Framings {
    Pair {
        first: Binary,
        second: Sentence,
    }
}

pub fn all_formats() -> RecordFormats {
    Pair {
        first: Pair {
            first: Df3,
            second: Df7,
        },
        second: Pair {
            first: Text,
            second: SentenceFields,
        },
    }
}

// A table for this many entries.
pub fn entry_table(rt: &HostRuntime, entries: usize) -> anyhow::Result<Vec<Entry>>
    ensures { IfOk result (λ t. t.items ≡ replicate entries (record { place = 0; len = 0; kind = 0; series = 0; verdict = 0; fault = 0 })) }
{
    Ok(vec![in rt.alloc(); Entry::default(); entries]?)
}
