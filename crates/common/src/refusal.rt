// Refusals, as every layer tells them.
ghost use Rattle.std.specs.Prelude.{◌≡◌, Some};
ghost use Rattle.common.specs.Refusals.{meaning, refusal_text};

use std::fmt;

// A refusal: its number, the layer that refuses (1 intake, 2 format, 3 writer of frames and lines, 4 blocks), and a place, 0 where none is named.
// Number and layer are no enums: a refusal may also tell what a format of another kind says, and `meaning` answers for every number.
#[derive(Clone, Copy, PartialEq, Eq, Debug)]
pub struct Refusal {
    pub number: u16,
    pub layer: u8,
    pub place: usize,
}

impl Refusal {
    // What the refusal's number says, in words.
    pub fn meaning(self) -> &'static str
        ensures { result.now ≡ meaning self.number }
    {
        match self.number {
            1 => "the stream is closed",
            2 => "more than 2^40 bytes would have been accepted",
            3 => "more than 8,192 bytes would wait",
            4 => "the space is shorter than the framing's reach",
            5 => "the register has no free place",
            10 => "no format claims the record",
            11 => "too few data bytes",
            12 => "another version or instrument type",
            13 => "the offset is outside the data",
            14 => "the clock is not a date and time",
            15 => "the number of beams or cells is wrong",
            16 => "the arrays end outside the data",
            17 => "a correlation is above 100",
            18 => "the string record has no data",
            19 => "the sentence has more than 64 fields",
            20 => "the table is too short for the parts",
            21 => "the part is outside the record",
            22 => "the part has no such item",
            23 => "no accepted DF3 record with that array",
            24 => "there is no such beam or cell",
            25 => "the data do not fit the frame or its space",
            26 => "the line does not fit its space",
            27 => "more than 3,968 entries, or the space is too short for their blocks",
            28 => "the bytes are not whole blocks, or more than 128",
            29 => "a block's checksum is wrong",
            30 => "a block's count, number, zeros or free entries are wrong",
            31 => "the table is too short for the entries",
            _ => "unknown",
        }
    }
}

impl fmt::Display for Refusal {
    ghost output = { λ r. Some (refusal_text r) };

    fn fmt<W: fmt::Write>(&self, f: &mut fmt::Formatter<W>) -> fmt::Result {
        let number = self.number;
        let words = self.meaning();
        write!(f, "{number}: {words}")
    }
}
