// What was read at the dam on one day, by the sensors and by tape.
use cells::levels::LevelPosting;
use cells::marks::MarkPosting;
use cells::totals::TotalPosting;
use std::fmt;

/// What a reading was taken with.
// `round` has readers and steps of its own: a crate for three words would be more than they are.
#[derive(Clone, Copy, PartialEq, Eq, Debug)]
pub enum Source {
    Sensor,
    Tape,
}

impl fmt::Display for Source {
    fn fmt<W: fmt::Write>(&self, f: &mut fmt::Formatter<W>) -> fmt::Result {
        match self {
            Source::Sensor => write!(f, "sensor"),
            Source::Tape => write!(f, "tape"),
        }
    }
}

/// One reading: what it was taken with, and what it posts.
// `round` has its own, as with `Source`.
#[derive(Clone, Copy, PartialEq, Eq, Debug)]
pub struct Reading<P> {
    pub source: Source,
    pub posting: P,
}

/// Standpipe 4 in millimetres: the tape corrects the sensor by 3.
pub const STANDPIPE: [Reading<LevelPosting>; 4] = [
    Reading {
        source: Source::Sensor,
        posting: LevelPosting::Set(1250),
    },
    Reading {
        source: Source::Tape,
        posting: LevelPosting::Look,
    },
    Reading {
        source: Source::Tape,
        posting: LevelPosting::Set(1247),
    },
    Reading {
        source: Source::Sensor,
        posting: LevelPosting::Look,
    },
];

/// Weir 2 in litres: the total turns over twice, and two additions are none that a total can take.
pub const WEIR: [Reading<TotalPosting>; 7] = [
    Reading {
        source: Source::Tape,
        posting: TotalPosting::Look,
    },
    Reading {
        source: Source::Sensor,
        posting: TotalPosting::Add(15),
    },
    Reading {
        source: Source::Tape,
        posting: TotalPosting::Look,
    },
    Reading {
        source: Source::Sensor,
        posting: TotalPosting::Add(1_000_000_000),
    },
    Reading {
        source: Source::Sensor,
        posting: TotalPosting::Add(-3),
    },
    Reading {
        source: Source::Tape,
        posting: TotalPosting::Add(999_999_999),
    },
    Reading {
        source: Source::Sensor,
        posting: TotalPosting::Look,
    },
];

/// The high-water mark in millimetres: only two of the raises pass it.
pub const HIGH_WATER: [Reading<MarkPosting>; 6] = [
    Reading {
        source: Source::Sensor,
        posting: MarkPosting::Raise(-50),
    },
    Reading {
        source: Source::Tape,
        posting: MarkPosting::Look,
    },
    Reading {
        source: Source::Sensor,
        posting: MarkPosting::Raise(309),
    },
    Reading {
        source: Source::Tape,
        posting: MarkPosting::Raise(312),
    },
    Reading {
        source: Source::Sensor,
        posting: MarkPosting::Raise(310),
    },
    Reading {
        source: Source::Tape,
        posting: MarkPosting::Look,
    },
];
