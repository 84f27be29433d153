// What can fail to hold of a record, by name.
ghost use Rattle.std.specs.Prelude.{◌≡◌};
ghost use Rattle.format.specs.Defects.{number_of, fault_at};

use crate::format::RecordFault;

// What a format of this family of instruments tells of a record that it does not accept. Another format may tell other numbers.
#[derive(Clone, Copy, PartialEq, Eq, Debug)]
pub enum Defect {
    // No format claims the record.
    Unclaimed,
    // There are too few data bytes.
    FewData,
    // The version or the instrument type is another.
    OtherVersion,
    // The offset of the data is outside them.
    OffsetOutside,
    // The clock is not a date and time.
    NoDateTime,
    // The number of beams or of cells is wrong.
    BeamsOrCells,
    // The arrays end outside the data.
    ArraysOutside,
    // A correlation is above 100.
    HighCorrelation,
    // A string record has no data.
    NoData,
    // A sentence has more fields than are listed.
    ManyFields,
}

impl From<Defect> for u16 {
    ghost from_gives = { λ d n. n ≡ number_of d };

    fn from(defect: Defect) -> u16 {
        match defect {
            Defect::Unclaimed => 10,
            Defect::FewData => 11,
            Defect::OtherVersion => 12,
            Defect::OffsetOutside => 13,
            Defect::NoDateTime => 14,
            Defect::BeamsOrCells => 15,
            Defect::ArraysOutside => 16,
            Defect::HighCorrelation => 17,
            Defect::NoData => 18,
            Defect::ManyFields => 19,
        }
    }
}

impl Defect {
    // The fault of a record that has this defect at a place.
    pub fn at(self, place: usize) -> RecordFault
        ensures { result ≡ fault_at self place }
    {
        RecordFault {
            number: u16::from(self),
            place,
        }
    }
}
