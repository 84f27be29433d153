// DF3 velocity records, kind 1, series 0x15, 0x16 and 0x18: fixed fields, spare bytes up to an offset, arrays, and a tail.
ghost use Rattle.std.specs.Prelude.{◌≡◌, ◌<◌, ◌≤◌, length, None, Err, nat_lt, position, MatchOption, MatchResult, IfOk};
ghost use Rattle.format.specs.Meaning.{Leaves, accepted};
ghost use Rattle.velocity.specs.Layout.{data_size};
ghost use Rattle.velocity.specs.Df3.{df3_fields, df3_claims, df3_judged, df3_arrayed, df3_meaning, df3_parts, df3_offset, cells, beams, included, velocities, amplitudes, correlations, amplitude_position, correlation_position, arrays_end, high_correlation};
ghost use Rattle.velocity.specs.Df3Laws.{df3_lawful};

use crate::clock::judge_clock;
use crate::layout::{
    Field, HEADER, KIND, bytes_between, field_at, field_part, list_layout, plain_field, word_at,
};
use common::list::List;
use format::defect::Defect;
use format::format::{Format, Part, PartsFault, RecordFault};

const OFFSET_LEAST: usize = 76;

const CLOCK: usize = 18;

const CONFIGURATION: usize = 12;

const LAYOUT: usize = 40;

pub(crate) const NOMINAL: usize = 46;

const MOST_CORRELATION: u8 = 100;

// The fields before the spare bytes.
const FIELDS: [Field; 36] = [
    field_at!(0, 1, 1, false), // version
    field_at!(1, 1, 1, false), // offset
    field_at!(2, 2, 1, false), // configuration
    field_at!(4, 4, 1, false), // serial
    field_at!(8, 1, 1, false), // year
    field_at!(9, 1, 1, false), // month
    field_at!(10, 1, 1, false), // day
    field_at!(11, 1, 1, false), // hour
    field_at!(12, 1, 1, false), // minute
    field_at!(13, 1, 1, false), // second
    field_at!(14, 2, 1, false), // hundred microseconds
    field_at!(16, 2, 1, false), // sound speed
    field_at!(18, 2, 1, true), // temperature
    field_at!(20, 4, 1, false), // pressure
    field_at!(24, 2, 1, false), // heading
    field_at!(26, 2, 1, true), // pitch
    field_at!(28, 2, 1, true), // roll
    field_at!(30, 2, 1, false), // layout
    field_at!(32, 2, 1, false), // cell size
    field_at!(34, 2, 1, false), // blanking
    field_at!(36, 1, 1, false), // nominal correlation
    field_at!(37, 1, 1, false), // sensor temperature
    field_at!(38, 2, 1, false), // battery
    field_at!(40, 2, 3, true), // magnetometer
    field_at!(46, 2, 3, true), // accelerometer
    field_at!(52, 2, 1, false), // ambiguity velocity
    field_at!(54, 2, 1, false), // data set
    field_at!(56, 2, 1, false), // energy
    field_at!(58, 1, 1, true), // velocity scaling
    field_at!(59, 1, 1, true), // power level
    field_at!(60, 2, 1, true), // magnetometer temperature
    field_at!(62, 2, 1, true), // clock temperature
    field_at!(64, 2, 1, false), // error
    field_at!(66, 2, 1, false), // extended status
    field_at!(68, 4, 1, false), // status
    field_at!(72, 4, 1, false), // ensemble counter
];

// The table, which is the definition's.
fn fixed_fields() -> [Field; 36]
    ensures { result ≡ df3_fields }
{
    FIELDS
}

// The format of DF3 records.
#[derive(Clone, Copy, Debug)]
pub struct Df3;

fn is_df3(kind: u8, bytes: &[u8]) -> bool
    ensures { result ≡ df3_claims kind bytes.now }
{
    kind == KIND
        && bytes.len() >= HEADER
        && (bytes[2] == 0x15 || bytes[2] == 0x16 || bytes[2] == 0x18)
}

// The index of the first number above 100.
fn first_above(numbers: &[u8]) -> Option<usize>
    ensures { result ≡ position (λ x. nat_lt 100 x) numbers.now }
{
    numbers.iter().position(|number| *number > MOST_CORRELATION)
}

// A record that has all the fixed fields.
#[derive(Clone, Copy)]
pub(crate) struct Fixed<'a> {
    pub(crate) bytes: &'a [u8],
    ghost long: { 86 ≤ length bytes.now },
}

impl<'a> Fixed<'a> {
    fn new(bytes: &'a [u8]) -> Option<Fixed<'a>>
        ensures { MatchOption result (length bytes.now < 86) (λ f. f.bytes.now ≡ bytes.now) }
    {
        if bytes.len() < HEADER + OFFSET_LEAST {
            return None;
        }
        Some(Fixed { bytes })
    }

    fn data_size(&self) -> usize
        ensures { result ≡ data_size self.now.bytes.now }
    {
        self.bytes.len() - HEADER
    }

    pub(crate) fn offset(&self) -> usize
        ensures value { result ≡ df3_offset self.now.bytes.now }
        ensures few { result ≤ 255 }
    {
        usize::from(self.bytes[11])
    }

    pub(crate) fn cells(&self) -> usize
        ensures value { result ≡ cells self.now.bytes.now }
        ensures few { result ≤ 1023 }
    {
        usize::from(word_at(self.bytes, LAYOUT) % 1024)
    }

    pub(crate) fn beams(&self) -> usize
        ensures value { result ≡ beams self.now.bytes.now }
        ensures few { result ≤ 15 }
    {
        usize::from(word_at(self.bytes, LAYOUT) / 4096 % 16)
    }

    // How many items an array has that one of the configuration's 16 bits includes. The bound is said again of each of the three arrays, which is
    // plainer than a type of counts for one bound.
    #[tactic(auto, using(crate::proofs::Items::few_items))]
    fn included(&self, bit: u32) -> usize
        requires { bit < 16 }
        ensures value { result ≡ included bit self.now.bytes.now }
        ensures few { result ≤ 15345 }
    {
        if (word_at(self.bytes, CONFIGURATION) >> bit) % 2 == 1 {
            self.beams() * self.cells()
        } else {
            0
        }
    }

    pub(crate) fn velocities(&self) -> usize
        ensures value { result ≡ velocities self.now.bytes.now }
        ensures few { result ≤ 15345 }
    {
        self.included(5)
    }

    fn amplitudes(&self) -> usize
        ensures value { result ≡ amplitudes self.now.bytes.now }
        ensures few { result ≤ 15345 }
    {
        self.included(6)
    }

    pub(crate) fn correlations(&self) -> usize
        ensures value { result ≡ correlations self.now.bytes.now }
        ensures few { result ≤ 15345 }
    {
        self.included(7)
    }

    // Where the arrays begin behind the velocities, and where the last of them ends.
    fn amplitude_position(&self) -> usize
        ensures value { result ≡ amplitude_position self.now.bytes.now }
        ensures few { result ≤ 30945 }
    {
        self.offset() + 2 * self.velocities()
    }

    pub(crate) fn correlation_position(&self) -> usize
        ensures value { result ≡ correlation_position self.now.bytes.now }
        ensures few { result ≤ 46290 }
    {
        self.amplitude_position() + self.amplitudes()
    }

    fn arrays_end(&self) -> usize
        ensures value { result ≡ arrays_end self.now.bytes.now }
        ensures few { result ≤ 61635 }
    {
        self.correlation_position() + self.correlations()
    }

    // The place of the first correlation above 100. Its one caller has just tested that the arrays end inside the data, so no type says it.
    #[tactic(auto, using(crate::proofs::Profiles::above))]
    fn high_correlation(&self) -> Option<usize>
        requires { arrays_end self.now.bytes.now ≤ data_size self.now.bytes.now }
        ensures { result ≡ high_correlation self.now.bytes.now }
    {
        if self.bytes[NOMINAL] > MOST_CORRELATION {
            return Some(NOMINAL);
        }
        let place = self.correlation_position() + HEADER;
        let i = first_above(&self.bytes[place..place + self.correlations()])?;
        Some(place + i)
    }

    // Judges what is behind a right clock.
    fn judge_arrays(&self) -> Result<(), RecordFault>
        ensures says { MatchResult result (λ _. df3_arrayed self.now.bytes.now ≡ accepted (df3_parts self.now.bytes.now)) (λ e. (df3_arrayed self.now.bytes.now).judgement ≡ Err e) }
        ensures inside { IfOk result (λ _. arrays_end self.now.bytes.now ≤ data_size self.now.bytes.now) }
        ensures low { IfOk result (λ _. high_correlation self.now.bytes.now ≡ None) }
    {
        let beams = self.beams();
        if beams < 1 || beams > 5 || self.cells() < 1 {
            return Err(Defect::BeamsOrCells.at(LAYOUT));
        }
        if self.arrays_end() > self.data_size() {
            return Err(Defect::ArraysOutside.at(CONFIGURATION));
        }
        match self.high_correlation() {
            Some(place) => Err(Defect::HighCorrelation.at(place)),
            None => Ok(()),
        }
    }

    // The same of a record that is claimed and has the fixed fields.
    fn accepted(&self) -> Result<Accepted<'a>, RecordFault>
        ensures { MatchResult result (λ r. (r.fixed.bytes.now ≡ self.now.bytes.now) × (df3_judged self.now.bytes.now ≡ accepted (df3_parts self.now.bytes.now))) (λ e. (df3_judged self.now.bytes.now).judgement ≡ Err e) }
    {
        if self.bytes[10] != 3 {
            return Err(Defect::OtherVersion.at(10));
        }
        let offset = self.offset();
        if offset < OFFSET_LEAST || offset > self.data_size() {
            return Err(Defect::OffsetOutside.at(11));
        }
        judge_clock(CLOCK, self.bytes)?;
        self.judge_arrays()?;
        Ok(Accepted { fixed: *self })
    }
}

// An accepted record: its arrays lie inside the data, and no correlation is above 100.
#[derive(Clone, Copy)]
pub(crate) struct Accepted<'a> {
    pub(crate) fixed: Fixed<'a>,
    ghost least: { 76 ≤ df3_offset fixed.bytes.now },
    ghost most: { arrays_end fixed.bytes.now ≤ data_size fixed.bytes.now },
    ghost low: { high_correlation fixed.bytes.now ≡ None },
}

impl<'a> Accepted<'a> {
    // A record as an accepted one, or what is wrong with it.
    pub(crate) fn read(kind: u8, bytes: &'a [u8]) -> Result<Accepted<'a>, RecordFault>
        ensures { MatchResult result (λ r. (r.fixed.bytes.now ≡ bytes.now) × (df3_meaning kind bytes.now ≡ accepted (df3_parts bytes.now))) (λ e. (df3_meaning kind bytes.now).judgement ≡ Err e) }
    {
        if !is_df3(kind, bytes) {
            return Err(Defect::Unclaimed.at(0));
        }
        Fixed::new(bytes).ok_or(Defect::FewData.at(4))?.accepted()
    }

    fn list(&self, out: &mut List<'_, Part>) -> Result<(), PartsFault>
        ensures { Leaves (accepted (df3_parts self.now.fixed.bytes.now)) out.old out.new result }
    {
        let fixed = self.fixed;
        let velocities = Field {
            position: fixed.offset(),
            width: 2,
            count: fixed.velocities(),
            signed: true,
        };
        let amplitudes = plain_field(fixed.amplitude_position(), fixed.amplitudes());
        let correlations = plain_field(fixed.correlation_position(), fixed.correlations());
        let others = [
            field_part(37, bytes_between(OFFSET_LEAST, fixed.offset())),
            field_part(38, velocities),
            field_part(39, amplitudes),
            field_part(40, correlations),
            field_part(41, bytes_between(fixed.arrays_end(), fixed.data_size())),
        ];
        list_layout(&fixed_fields(), &others, out)
    }
}

impl Format for Df3 {
    ghost meaning = { λ _. df3_meaning };

    ghost lawful = { λ f. df3_lawful };

    fn claims(&self, kind: u8, bytes: &[u8]) -> bool {
        is_df3(kind, bytes)
    }

    fn judge(&self, kind: u8, bytes: &[u8]) -> Result<(), RecordFault> {
        Accepted::read(kind, bytes)?;
        Ok(())
    }

    fn list(&self, kind: u8, bytes: &[u8], out: &mut List<'_, Part>) -> Result<(), PartsFault> {
        Accepted::read(kind, bytes)?.list(out)
    }
}
