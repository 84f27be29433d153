// DF7 velocity records, kind 1, series 0x26: fixed fields, spare bytes up to an offset, and a tail.
ghost use Rattle.std.specs.Prelude.{◌≡◌, ◌<◌, ◌≤◌, length, Err, MatchOption, MatchResult};
ghost use Rattle.format.specs.Meaning.{Leaves, accepted};
ghost use Rattle.velocity.specs.Df7.{df7_fields, df7_claims, df7_judged, df7_meaning, df7_parts, df7_offset};
ghost use Rattle.velocity.specs.Layout.{data_size};
ghost use Rattle.velocity.specs.Df7Laws.{df7_lawful};

use crate::clock::judge_clock;
use crate::layout::{
    Field, HEADER, KIND, bytes_between, field_at, field_part, list_layout, word_at,
};
use common::list::List;
use format::defect::Defect;
use format::format::{Format, Part, PartsFault, RecordFault};

const SERIES: u8 = 0x26;

const OFFSET_LEAST: usize = 60;

const CLOCK: usize = 34;

// The fields before the spare bytes.
const FIELDS: [Field; 21] = [
    field_at!(0, 1, 1, false), // version
    field_at!(1, 1, 1, false), // instrument type
    field_at!(2, 2, 1, false), // offset
    field_at!(4, 4, 1, false), // configuration
    field_at!(8, 4, 1, false), // types
    field_at!(12, 1, 8, false), // validity
    field_at!(20, 4, 1, false), // serial
    field_at!(24, 1, 1, false), // year since 1900
    field_at!(25, 1, 1, false), // month from 0
    field_at!(26, 1, 1, false), // day
    field_at!(27, 1, 1, false), // hour
    field_at!(28, 1, 1, false), // minute
    field_at!(29, 1, 1, false), // second
    field_at!(30, 2, 1, false), // hundred microseconds
    field_at!(32, 4, 1, false), // sound speed
    field_at!(36, 4, 1, false), // temperature
    field_at!(40, 4, 1, false), // pressure
    field_at!(44, 4, 1, false), // absolute pressure
    field_at!(48, 4, 1, false), // heading
    field_at!(52, 4, 1, false), // pitch
    field_at!(56, 4, 1, false), // roll
];

// The table, which is the definition's.
fn fixed_fields() -> [Field; 21]
    ensures { result ≡ df7_fields }
{
    FIELDS
}

// The format of DF7 records.
#[derive(Clone, Copy, Debug)]
pub struct Df7;

fn is_df7(kind: u8, bytes: &[u8]) -> bool
    ensures { result ≡ df7_claims kind bytes.now }
{
    kind == KIND && bytes.len() >= HEADER && bytes[2] == SERIES
}

// A record that has all the fixed fields. DF3 has its own: a trait for both would need as many members as it saves.
#[derive(Clone, Copy)]
struct Fixed<'a> {
    bytes: &'a [u8],
    ghost long: { 70 ≤ length bytes.now },
}

impl<'a> Fixed<'a> {
    fn new(bytes: &'a [u8]) -> Option<Fixed<'a>>
        ensures { MatchOption result (length bytes.now < 70) (λ f. f.bytes.now ≡ bytes.now) }
    {
        if bytes.len() < HEADER + OFFSET_LEAST {
            return None;
        }
        Some(Fixed { bytes })
    }

    fn data_size(&self) -> usize
        ensures { result ≡ data_size self.now.bytes.now }
    {
        self.bytes.len() - HEADER
    }

    fn offset(&self) -> usize
        ensures value { result ≡ df7_offset self.now.bytes.now }
        ensures few { result ≤ 65535 }
    {
        usize::from(word_at(self.bytes, 12))
    }

    // The same of a record that is claimed and has the fixed fields.
    fn accepted(&self) -> Result<Accepted<'a>, RecordFault>
        ensures { MatchResult result (λ r. (r.fixed.bytes.now ≡ self.now.bytes.now) × (df7_judged self.now.bytes.now ≡ accepted (df7_parts self.now.bytes.now))) (λ e. (df7_judged self.now.bytes.now).judgement ≡ Err e) }
    {
        if self.bytes[11] != 0x30 && self.bytes[11] != 0x40 {
            return Err(Defect::OtherVersion.at(11));
        }
        let offset = self.offset();
        if offset < OFFSET_LEAST || offset > self.data_size() {
            return Err(Defect::OffsetOutside.at(12));
        }
        judge_clock(CLOCK, self.bytes)?;
        Ok(Accepted { fixed: *self })
    }
}

// An accepted record: its offset lies inside the data.
#[derive(Clone, Copy)]
struct Accepted<'a> {
    fixed: Fixed<'a>,
    ghost least: { 60 ≤ df7_offset fixed.bytes.now },
    ghost most: { df7_offset fixed.bytes.now ≤ data_size fixed.bytes.now },
}

impl<'a> Accepted<'a> {
    // A record as an accepted one, or what is wrong with it.
    fn read(kind: u8, bytes: &'a [u8]) -> Result<Accepted<'a>, RecordFault>
        ensures { MatchResult result (λ r. (r.fixed.bytes.now ≡ bytes.now) × (df7_meaning kind bytes.now ≡ accepted (df7_parts bytes.now))) (λ e. (df7_meaning kind bytes.now).judgement ≡ Err e) }
    {
        if !is_df7(kind, bytes) {
            return Err(Defect::Unclaimed.at(0));
        }
        Fixed::new(bytes).ok_or(Defect::FewData.at(4))?.accepted()
    }

    fn list(&self, out: &mut List<'_, Part>) -> Result<(), PartsFault>
        ensures { Leaves (accepted (df7_parts self.now.fixed.bytes.now)) out.old out.new result }
    {
        let fixed = self.fixed;
        let spare = bytes_between(OFFSET_LEAST, fixed.offset());
        let tail = bytes_between(fixed.offset(), fixed.data_size());
        let others = [field_part(22, spare), field_part(23, tail)];
        list_layout(&fixed_fields(), &others, out)
    }
}

impl Format for Df7 {
    ghost meaning = { λ _. df7_meaning };

    ghost lawful = { λ f. df7_lawful };

    fn claims(&self, kind: u8, bytes: &[u8]) -> bool {
        is_df7(kind, bytes)
    }

    fn judge(&self, kind: u8, bytes: &[u8]) -> Result<(), RecordFault> {
        Accepted::read(kind, bytes)?;
        Ok(())
    }

    fn list(&self, kind: u8, bytes: &[u8], out: &mut List<'_, Part>) -> Result<(), PartsFault> {
        Accepted::read(kind, bytes)?.list(out)
    }
}
