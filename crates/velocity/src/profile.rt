// What is taken from an accepted DF3 record: cell centres, velocities and correlations.
ghost use Rattle.std.specs.Prelude.{◌≡◌, ◌*◌, ◌<◌, true, false, if◌then◌else◌, Some, None, Ok, Err, IfOk, MatchResult};
ghost use Rattle.velocity.specs.declared.profile.ProfileFault.TheVariants.{NotDf3};
ghost use Rattle.velocity.specs.Df3.{beams, cells};
ghost use Rattle.velocity.specs.Profile.{told, is_accepted, centre_of, exist, item_number, item_of, velocity_of, correlation_of, nominal_of};

use crate::df3::{Accepted, Fixed, NOMINAL};
use crate::layout::{HEADER, word_at};
use crate::percent::Percent;
use common::refusal::Refusal;

const CELL_SIZE: usize = 42;

const BLANKING: usize = 44;

const SCALING: usize = 68;

// Why nothing is taken from a record.
#[derive(Clone, Copy, PartialEq, Eq, Debug)]
pub enum ProfileFault {
    // It is no accepted DF3 record, or has not that array.
    NotDf3,
    // It has no such beam or cell.
    NoCell,
}

impl From<ProfileFault> for Refusal {
    ghost from_gives = { λ f r. r ≡ told f };

    fn from(fault: ProfileFault) -> Refusal {
        let number = match fault {
            ProfileFault::NotDf3 => 23,
            ProfileFault::NoCell => 24,
        };
        Refusal {
            number,
            layer: 2,
            place: 0,
        }
    }
}

// A velocity: its mantissa times ten to the scaling, in metres per second, unrounded.
#[derive(Clone, Copy, PartialEq, Eq, Debug)]
pub struct Velocity {
    pub mantissa: i16,
    pub scaling: i8,
}

// A record that the format accepts.
fn accepted(kind: u8, bytes: &[u8]) -> Result<Accepted<'_>, ProfileFault>
    ensures { MatchResult result (λ r. (r.fixed.bytes.now ≡ bytes.now) × (is_accepted kind bytes.now ≡ true)) (λ e. (e ≡ NotDf3) × (is_accepted kind bytes.now ≡ false)) }
{
    Accepted::read(kind, bytes).map_err(|_| ProfileFault::NotDf3)
}

// The centre of a cell, counted from 1, in millimetres.
#[tactic(auto, using(crate::proofs::Items::near_cell))]
pub fn centre(kind: u8, bytes: &[u8], cell: usize) -> Result<u32, ProfileFault>
    ensures { result ≡ centre_of kind bytes.now cell }
{
    let record = accepted(kind, bytes)?.fixed;
    if cell < 1 || cell > record.cells() {
        return Err(ProfileFault::NoCell);
    }
    let blanking = 10 * u32::from(word_at(record.bytes, BLANKING));
    Ok(blanking + cell as u32 * u32::from(word_at(record.bytes, CELL_SIZE)))
}

// The number of the item of a beam and a cell, both counted from 1, in an array of so many items.
#[tactic(auto, using(crate::proofs::Items::rows))]
fn item_of(fixed: &Fixed<'_>, items: usize, beam: usize, cell: usize) -> Result<usize, ProfileFault>
    ensures value { result ≡ item_of fixed.now.bytes.now items beam cell }
    ensures within { IfOk result (λ i. (0 < items) × (i < beams fixed.now.bytes.now * cells fixed.now.bytes.now)) }
{
    if items == 0 {
        return Err(ProfileFault::NotDf3);
    }
    let cells = fixed.cells();
    if beam < 1 || beam > fixed.beams() || cell < 1 || cell > cells {
        return Err(ProfileFault::NoCell);
    }
    Ok((beam - 1) * cells + (cell - 1))
}

// The velocity of a beam and a cell.
#[tactic(auto, using(crate::proofs::Items::all_items))]
pub fn velocity_at(
    kind: u8,
    bytes: &[u8],
    beam: usize,
    cell: usize,
) -> Result<Velocity, ProfileFault>
    ensures { result ≡ velocity_of kind bytes.now beam cell }
{
    let record = accepted(kind, bytes)?.fixed;
    let i = item_of(&record, record.velocities(), beam, cell)?;
    let place = record.offset() + HEADER + 2 * i;
    Ok(Velocity {
        mantissa: word_at(record.bytes, place).cast_signed(),
        scaling: record.bytes[SCALING].cast_signed(),
    })
}

// The correlation of a beam and a cell.
pub fn correlation(
    kind: u8,
    bytes: &[u8],
    beam: usize,
    cell: usize,
) -> Result<Percent, ProfileFault>
    ensures { MatchResult result (λ p. correlation_of kind bytes.now beam cell ≡ Ok p.value) (λ e. correlation_of kind bytes.now beam cell ≡ Err e) }
{
    let record = accepted(kind, bytes)?.fixed;
    let i = item_of(&record, record.correlations(), beam, cell)?;
    let value = record.bytes[record.correlation_position() + HEADER + i];
    Ok(Percent { value })
}

// The nominal correlation.
pub fn nominal_correlation(kind: u8, bytes: &[u8]) -> Result<Percent, ProfileFault>
    ensures { MatchResult result (λ p. nominal_of kind bytes.now ≡ Ok p.value) (λ e. nominal_of kind bytes.now ≡ Err e) }
{
    let record = accepted(kind, bytes)?.fixed;
    let value = record.bytes[NOMINAL];
    Ok(Percent { value })
}
