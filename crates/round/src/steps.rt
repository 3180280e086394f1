// What was asked of the registers on one round of the dam, and by whom.
use cells::levels::LevelPosting;
use cells::totals::TotalPosting;
use rules::calls::Call;
use std::fmt;

/// Who makes a call.
// `day` has sources and readings of its own: a crate for three words would be more than they are.
#[derive(Clone, Copy, PartialEq, Eq, Debug)]
pub enum Reader {
    /// The logger of the sensors, on its round.
    Sensor,
    /// The reader with the tape, on another round at the same time.
    Tape,
    /// The office, which sees only what is committed.
    Office,
}

impl fmt::Display for Reader {
    fn fmt<W: fmt::Write>(&self, f: &mut fmt::Formatter<W>) -> fmt::Result {
        match self {
            Reader::Sensor => write!(f, "sensor"),
            Reader::Tape => write!(f, "tape"),
            Reader::Office => write!(f, "office"),
        }
    }
}

/// One step: a call, and who makes it.
// `day` has its own, as with `Reader`.
#[derive(Clone, Copy, PartialEq, Eq, Debug)]
pub struct Step<P> {
    pub reader: Reader,
    pub call: Call<P>,
}

/// Stands for the register itself where an entry is begun, as in scripts.
const TOP: u16 = 0;

// Cells of the register of levels: standpipes 1 and 2 stand in the upper gallery, 3 and 4 in the lower.
const PIPE_1: usize = 0;

const PIPE_2: usize = 1;

const PIPE_3: usize = 2;

const PIPE_4: usize = 3;

/// The cell of the register of totals.
const WEIR: usize = 0;

// The numbers that entries get, in the order of the begins below; the register of totals has only the
// first two.
const SENSOR_ROUND: u16 = 1;

const TAPE_ROUND: u16 = 2;

const SENSOR_UPPER: u16 = 3;

const TAPE_LOWER: u16 = 4;

const SENSOR_PIPE_1: u16 = 5;

const TAPE_PIPE_3: u16 = 6;

const SENSOR_PIPE_2: u16 = 7;

const TAPE_UPPER: u16 = 8;

const TAPE_PIPE_1: u16 = 9;

const SENSOR_LOWER: u16 = 10;

const SENSOR_PIPE_3: u16 = 11;

const SENSOR_PIPE_4: u16 = 12;

/// The sensor starts in the upper gallery and the tape in the lower one, so that neither is in the
/// other's way. What an instrument's entry posted passes to its gallery, and from there to the round.
pub const BOTH_BEGIN: [Step<LevelPosting>; 12] = [
    Step {
        reader: Reader::Sensor,
        call: Call::Begin { parent: TOP },
    },
    Step {
        reader: Reader::Tape,
        call: Call::Begin { parent: TOP },
    },
    Step {
        reader: Reader::Sensor,
        call: Call::Begin {
            parent: SENSOR_ROUND,
        },
    },
    Step {
        reader: Reader::Tape,
        call: Call::Begin { parent: TAPE_ROUND },
    },
    Step {
        reader: Reader::Sensor,
        call: Call::Begin {
            parent: SENSOR_UPPER,
        },
    },
    Step {
        reader: Reader::Tape,
        call: Call::Begin { parent: TAPE_LOWER },
    },
    Step {
        reader: Reader::Sensor,
        call: Call::Post {
            entry: SENSOR_PIPE_1,
            cell: PIPE_1,
            posting: LevelPosting::Set(1115),
        },
    },
    // Last time's level, before the new one is set.
    Step {
        reader: Reader::Tape,
        call: Call::Post {
            entry: TAPE_PIPE_3,
            cell: PIPE_3,
            posting: LevelPosting::Look,
        },
    },
    Step {
        reader: Reader::Tape,
        call: Call::Post {
            entry: TAPE_PIPE_3,
            cell: PIPE_3,
            posting: LevelPosting::Set(2333),
        },
    },
    Step {
        reader: Reader::Sensor,
        call: Call::Keep {
            entry: SENSOR_PIPE_1,
        },
    },
    Step {
        reader: Reader::Tape,
        call: Call::Keep { entry: TAPE_PIPE_3 },
    },
    // Standpipe 4 is out of the tape's reach, so that the gallery is done.
    Step {
        reader: Reader::Tape,
        call: Call::Keep { entry: TAPE_LOWER },
    },
];

/// A loose cable gives a level that cannot be. Its entry is abandoned, and the gallery sees what stood
/// there before.
pub const WRONG_FIGURE: [Step<LevelPosting>; 4] = [
    Step {
        reader: Reader::Sensor,
        call: Call::Begin {
            parent: SENSOR_UPPER,
        },
    },
    Step {
        reader: Reader::Sensor,
        call: Call::Post {
            entry: SENSOR_PIPE_2,
            cell: PIPE_2,
            posting: LevelPosting::Set(9220),
        },
    },
    Step {
        reader: Reader::Sensor,
        call: Call::Abandon {
            entry: SENSOR_PIPE_2,
        },
    },
    Step {
        reader: Reader::Sensor,
        call: Call::Post {
            entry: SENSOR_UPPER,
            cell: PIPE_2,
            posting: LevelPosting::Look,
        },
    },
];

/// The tape comes to the upper gallery and has to wait for the sensor, which therefore publishes that
/// gallery before its round is over.
pub const PUBLISHED_EARLY: [Step<LevelPosting>; 8] = [
    Step {
        reader: Reader::Tape,
        call: Call::Begin { parent: TAPE_ROUND },
    },
    Step {
        reader: Reader::Tape,
        call: Call::Begin { parent: TAPE_UPPER },
    },
    // Turned away: the sensor's gallery holds a set there.
    Step {
        reader: Reader::Tape,
        call: Call::Post {
            entry: TAPE_PIPE_1,
            cell: PIPE_1,
            posting: LevelPosting::Look,
        },
    },
    Step {
        reader: Reader::Sensor,
        call: Call::Publish {
            entry: SENSOR_UPPER,
        },
    },
    Step {
        reader: Reader::Tape,
        call: Call::Post {
            entry: TAPE_PIPE_1,
            cell: PIPE_1,
            posting: LevelPosting::Look,
        },
    },
    // The tape corrects the sensor by 1.
    Step {
        reader: Reader::Tape,
        call: Call::Post {
            entry: TAPE_PIPE_1,
            cell: PIPE_1,
            posting: LevelPosting::Set(1114),
        },
    },
    Step {
        reader: Reader::Tape,
        call: Call::Keep { entry: TAPE_PIPE_1 },
    },
    Step {
        reader: Reader::Tape,
        call: Call::Keep { entry: TAPE_UPPER },
    },
];

/// Now the sensor has to wait, until the tape's round is over: the lines of the tape's instruments have
/// passed to that round.
pub const ROUND_KEPT: [Step<LevelPosting>; 8] = [
    Step {
        reader: Reader::Sensor,
        call: Call::Begin {
            parent: SENSOR_ROUND,
        },
    },
    // The gallery's own look, to compare with what the sensor will say.
    Step {
        reader: Reader::Sensor,
        call: Call::Post {
            entry: SENSOR_LOWER,
            cell: PIPE_4,
            posting: LevelPosting::Look,
        },
    },
    Step {
        reader: Reader::Sensor,
        call: Call::Begin {
            parent: SENSOR_LOWER,
        },
    },
    // Turned away: the tape's round holds a look and a set there.
    Step {
        reader: Reader::Sensor,
        call: Call::Post {
            entry: SENSOR_PIPE_3,
            cell: PIPE_3,
            posting: LevelPosting::Set(2335),
        },
    },
    Step {
        reader: Reader::Tape,
        call: Call::Keep { entry: TAPE_ROUND },
    },
    Step {
        reader: Reader::Sensor,
        call: Call::Post {
            entry: SENSOR_PIPE_3,
            cell: PIPE_3,
            posting: LevelPosting::Look,
        },
    },
    Step {
        reader: Reader::Sensor,
        call: Call::Post {
            entry: SENSOR_PIPE_3,
            cell: PIPE_3,
            posting: LevelPosting::Set(2335),
        },
    },
    Step {
        reader: Reader::Sensor,
        call: Call::Keep {
            entry: SENSOR_PIPE_3,
        },
    },
];

/// Standpipe 4 cannot be published before its gallery, which has looked at it: the look would then come
/// after the new level. It is kept instead, and goes with the round.
pub const KEPT_INSTEAD: [Step<LevelPosting>; 6] = [
    Step {
        reader: Reader::Sensor,
        call: Call::Begin {
            parent: SENSOR_LOWER,
        },
    },
    Step {
        reader: Reader::Sensor,
        call: Call::Post {
            entry: SENSOR_PIPE_4,
            cell: PIPE_4,
            posting: LevelPosting::Set(2447),
        },
    },
    // Turned away: the gallery holds its look.
    Step {
        reader: Reader::Sensor,
        call: Call::Publish {
            entry: SENSOR_PIPE_4,
        },
    },
    Step {
        reader: Reader::Sensor,
        call: Call::Keep {
            entry: SENSOR_PIPE_4,
        },
    },
    Step {
        reader: Reader::Sensor,
        call: Call::Keep {
            entry: SENSOR_LOWER,
        },
    },
    Step {
        reader: Reader::Sensor,
        call: Call::Keep {
            entry: SENSOR_ROUND,
        },
    },
];

/// What is committed when both rounds are over.
pub const LEVELS_AT_THE_END: [Step<LevelPosting>; 4] = [
    Step {
        reader: Reader::Office,
        call: Call::Value { cell: PIPE_1 },
    },
    Step {
        reader: Reader::Office,
        call: Call::Value { cell: PIPE_2 },
    },
    Step {
        reader: Reader::Office,
        call: Call::Value { cell: PIPE_3 },
    },
    Step {
        reader: Reader::Office,
        call: Call::Value { cell: PIPE_4 },
    },
];

/// Two rounds add to one weir at once: the sensor what ran over it, the tape what was caught beside it.
/// Additions cross, so both are taken, and the round begun first may be kept last. A look has to wait.
pub const SEEPAGE: [Step<TotalPosting>; 8] = [
    Step {
        reader: Reader::Sensor,
        call: Call::Begin { parent: TOP },
    },
    Step {
        reader: Reader::Tape,
        call: Call::Begin { parent: TOP },
    },
    Step {
        reader: Reader::Sensor,
        call: Call::Post {
            entry: SENSOR_ROUND,
            cell: WEIR,
            posting: TotalPosting::Add(120),
        },
    },
    Step {
        reader: Reader::Tape,
        call: Call::Post {
            entry: TAPE_ROUND,
            cell: WEIR,
            posting: TotalPosting::Add(35),
        },
    },
    // Turned away: what the tape has added may still be abandoned.
    Step {
        reader: Reader::Sensor,
        call: Call::Post {
            entry: SENSOR_ROUND,
            cell: WEIR,
            posting: TotalPosting::Look,
        },
    },
    Step {
        reader: Reader::Tape,
        call: Call::Keep { entry: TAPE_ROUND },
    },
    Step {
        reader: Reader::Sensor,
        call: Call::Post {
            entry: SENSOR_ROUND,
            cell: WEIR,
            posting: TotalPosting::Look,
        },
    },
    Step {
        reader: Reader::Sensor,
        call: Call::Keep {
            entry: SENSOR_ROUND,
        },
    },
];

/// What is committed of the seepage.
pub const TOTAL_AT_THE_END: [Step<TotalPosting>; 1] = [Step {
    reader: Reader::Office,
    call: Call::Value { cell: WEIR },
}];
