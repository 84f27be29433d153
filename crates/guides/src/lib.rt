// Which guide describes a record, by its kind and series.
#![tactic(auto)]

ghost use Rattle.std.specs.Prelude.{◌≡◌, Some};
ghost use Rattle.guides.specs.Guides.{format_of, name_of, title_of, edition_of};

use std::fmt;

// The format of a record.
#[derive(Clone, Copy, PartialEq, Eq, Debug)]
pub enum RecordFormat {
    Df3,
    Df7,
    Text,
    Sentence,
    Unknown,
}

impl fmt::Display for RecordFormat {
    ghost output = { λ format. Some (name_of format) };

    fn fmt<W: fmt::Write>(&self, f: &mut fmt::Formatter<W>) -> fmt::Result {
        f.write_str(match self {
            RecordFormat::Df3 => "DF3",
            RecordFormat::Df7 => "DF7",
            RecordFormat::Text => "string",
            RecordFormat::Sentence => "sentence",
            RecordFormat::Unknown => "unknown",
        })
    }
}

// A record's format, and the title and edition of the guide that describes it, empty where none does, so that they print as they are.
#[derive(Clone, Copy, Debug)]
pub struct Guide {
    pub format: RecordFormat,
    pub title: &'static str,
    pub edition: &'static str,
}

// The format of records of a kind and a series; a sentence has no series.
pub fn record_format(kind: u8, series: u8) -> RecordFormat
    ensures { result ≡ format_of kind series }
{
    match (kind, series) {
        (2, _) => RecordFormat::Sentence,
        (1, 0x15 | 0x16 | 0x18) => RecordFormat::Df3,
        (1, 0x26) => RecordFormat::Df7,
        (1, 0xA0) => RecordFormat::Text,
        _ => RecordFormat::Unknown,
    }
}

// The title of the guide that describes a format.
pub fn title(format: RecordFormat) -> &'static str
    ensures { result.now ≡ title_of format }
{
    match format {
        RecordFormat::Df3 => "DVL Integrator's Guide",
        RecordFormat::Df7 | RecordFormat::Text => {
            "Integrator's Guide, Generation 2 2D Horizontal Profiler"
        }
        RecordFormat::Sentence => "DVL Operations and Integration",
        RecordFormat::Unknown => "", // no guide
    }
}

// The edition of the guide that describes a format.
pub fn edition(format: RecordFormat) -> &'static str
    ensures { result.now ≡ edition_of format }
{
    match format {
        RecordFormat::Df3 => "2023.1",
        RecordFormat::Df7 | RecordFormat::Text => "2026.2",
        RecordFormat::Sentence => "2025.1",
        RecordFormat::Unknown => "",
    }
}

// The guide of records of a kind and a series.
pub fn guide_for(kind: u8, series: u8) -> Guide
    ensures format { result.format ≡ format_of kind series }
    ensures title { result.title.now ≡ title_of (format_of kind series) }
    ensures edition { result.edition.now ≡ edition_of (format_of kind series) }
{
    let format = record_format(kind, series);
    Guide {
        format,
        title: title(format),
        edition: edition(format),
    }
}
