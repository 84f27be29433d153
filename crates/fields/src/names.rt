// The names of parts, and how their items are written.
use guides::RecordFormat;

// How the items of a part are written.
#[derive(Clone, Copy, PartialEq, Eq, Debug)]
pub(crate) enum Style {
    // As they are.
    Number,
    // As 32-bit patterns.
    Pattern,
    // As characters.
    Text,
    // With the six parts behind it as one date and time of day.
    Clock,
    // As part of the clock, and not for itself.
    InClock,
    // Times ten to the exponent.
    Scaled(i8),
    // Times ten to the record's velocity scaling.
    Velocity,
    // Bytes in steps of 0.5.
    Halves,
    // A byte in steps of 0.2 from -4.0 on.
    SensorTemperature,
    // As percentages.
    Percentage,
}

// A part as it is shown: its name, how its items are written, and their unit, empty where they have none.
#[derive(Clone, Copy, Debug)]
pub(crate) struct Shown {
    pub name: &'static str,
    pub style: Style,
    pub unit: &'static str,
}

macro_rules! shown {
    ($name:literal, $style:expr, $unit:literal) => {
        Shown {
            name: $name,
            style: $style,
            unit: $unit,
        }
    };
}

// The parts of each format by their codes, which count from 1.
const DF3: [Shown; 41] = [
    shown!("version", Style::Number, ""),
    shown!("offset", Style::Number, ""),
    shown!("configuration", Style::Number, ""),
    shown!("serial", Style::Number, ""),
    shown!("year", Style::Clock, ""),
    shown!("month", Style::InClock, ""),
    shown!("day", Style::InClock, ""),
    shown!("hour", Style::InClock, ""),
    shown!("minute", Style::InClock, ""),
    shown!("second", Style::InClock, ""),
    shown!("hundred microseconds", Style::InClock, ""),
    shown!("sound speed", Style::Scaled(-1), " m/s"),
    shown!("temperature", Style::Scaled(-2), " °C"),
    shown!("pressure", Style::Scaled(-3), " dbar"),
    shown!("heading", Style::Scaled(-2), "°"),
    shown!("pitch", Style::Scaled(-2), "°"),
    shown!("roll", Style::Scaled(-2), "°"),
    shown!("layout", Style::Number, ""),
    shown!("cell size", Style::Scaled(-3), " m"),
    shown!("blanking", Style::Scaled(-2), " m"),
    shown!("nominal correlation", Style::Percentage, "%"),
    shown!("sensor temperature", Style::SensorTemperature, " °C"),
    shown!("battery", Style::Scaled(-1), " V"),
    shown!("magnetometer", Style::Number, ""),
    shown!("accelerometer", Style::Number, ""),
    shown!("ambiguity velocity", Style::Velocity, " m/s"),
    shown!("data set", Style::Number, ""),
    shown!("energy", Style::Number, ""),
    shown!("velocity scaling", Style::Number, ""),
    shown!("power level", Style::Number, " dB"),
    shown!("magnetometer temperature", Style::Scaled(-3), " °C"),
    shown!("clock temperature", Style::Number, ""),
    shown!("error", Style::Number, ""),
    shown!("extended status", Style::Number, ""),
    shown!("status", Style::Number, ""),
    shown!("ensemble counter", Style::Number, ""),
    shown!("spare", Style::Number, ""),
    shown!("velocities", Style::Velocity, " m/s"),
    shown!("amplitudes", Style::Halves, " dB"),
    shown!("correlations", Style::Percentage, "%"),
    shown!("tail", Style::Number, ""),
];

const DF7: [Shown; 23] = [
    shown!("version", Style::Number, ""),
    shown!("instrument type", Style::Number, ""),
    shown!("offset", Style::Number, ""),
    shown!("configuration", Style::Number, ""),
    shown!("types", Style::Number, ""),
    shown!("validity", Style::Number, ""),
    shown!("serial", Style::Number, ""),
    shown!("year", Style::Clock, ""),
    shown!("month", Style::InClock, ""),
    shown!("day", Style::InClock, ""),
    shown!("hour", Style::InClock, ""),
    shown!("minute", Style::InClock, ""),
    shown!("second", Style::InClock, ""),
    shown!("hundred microseconds", Style::InClock, ""),
    shown!("sound speed", Style::Pattern, ""),
    shown!("temperature", Style::Pattern, ""),
    shown!("pressure", Style::Pattern, ""),
    shown!("absolute pressure", Style::Pattern, ""),
    shown!("heading", Style::Pattern, ""),
    shown!("pitch", Style::Pattern, ""),
    shown!("roll", Style::Pattern, ""),
    shown!("spare", Style::Number, ""),
    shown!("tail", Style::Number, ""),
];

const TEXT: [Shown; 3] = [
    shown!("identifier", Style::Number, ""),
    shown!("text", Style::Text, ""),
    shown!("end", Style::Number, ""),
];

// The fields of a sentence, which are numbered.
const FIELD: Shown = shown!("field", Style::Text, "");

// A part whose code has no name.
const OTHER: Shown = shown!("part", Style::Number, "");

fn shown_by(rows: &[Shown], code: u16) -> Shown {
    match usize::from(code).checked_sub(1) {
        Some(i) if i < rows.len() => rows[i],
        _ => OTHER,
    }
}

pub(crate) fn part_shown(format: RecordFormat, code: u16) -> Shown {
    match format {
        RecordFormat::Df3 => shown_by(&DF3, code),
        RecordFormat::Df7 => shown_by(&DF7, code),
        RecordFormat::Text => shown_by(&TEXT, code),
        RecordFormat::Sentence => FIELD,
        RecordFormat::Unknown => OTHER,
    }
}

// Whether a part is an array with an item for each beam and cell.
pub(crate) fn is_array(format: RecordFormat, code: u16) -> bool {
    format == RecordFormat::Df3 && matches!(code, 38..=40)
}
