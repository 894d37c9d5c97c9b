//! The commands as a table, by which `clap` is told of them.

use clap::builder::ValueParser;

/// A command.
#[derive(Clone, Copy)]
pub(crate) struct CommandRow {
    pub(crate) name: &'static str,
    /// Its positionals in order, and its options.
    pub(crate) arguments: &'static [ArgumentRow],
}

/// An argument of a command.
#[derive(Clone, Copy)]
pub(crate) struct ArgumentRow {
    pub(crate) name: &'static str,
    /// Whether it is an option `--name VALUE`, or else a positional `NAME`.
    pub(crate) is_option: bool,
    /// Which texts are taken.
    pub(crate) parser: ValueParser<'static>,
    /// Its default, or none: then it must be given.
    pub(crate) defaults: &'static [&'static str],
    pub(crate) help: &'static str,
}

/// The commands.
pub(crate) const COMMANDS: [CommandRow; 12] = [
    CommandRow {
        name: "unwrap",
        arguments: &[TILE, RULE, RAMP_X, RAMP_Y, STEEP, WORKERS],
    },
    CommandRow {
        name: "grid",
        arguments: &[TILE, RULE, RAMP_X, RAMP_Y, STEEP, WORKERS],
    },
    CommandRow {
        name: "check",
        arguments: &[TILE, RULE, RAMP_X, RAMP_Y, STEEP],
    },
    CommandRow {
        name: "trial",
        arguments: &[
            SEED, WIDTH, HEIGHT, TILE, RULE, RAMP_X, RAMP_Y, STEEP, WORKERS,
        ],
    },
    CommandRow {
        name: "screen",
        arguments: &[WEIGHT, RADIUS, COUNT, PATCH, TILE],
    },
    CommandRow {
        name: "closure",
        arguments: &[],
    },
    CommandRow {
        name: "displacement",
        arguments: &[WAVELENGTH, X, Y, BLOCK],
    },
    CommandRow {
        name: "whole",
        arguments: &[RULE, RAMP_X, RAMP_Y, STEEP, WORKERS],
    },
    CommandRow {
        name: "check-whole",
        arguments: &[RULE, RAMP_X, RAMP_Y, STEEP],
    },
    CommandRow {
        name: "watch",
        arguments: &[TILE, RULE, RAMP_X, RAMP_Y, STEEP, WORKERS, READERS, READS],
    },
    CommandRow {
        name: "nearest",
        arguments: &[],
    },
    CommandRow {
        name: "parts",
        arguments: &[RULE, RAMP_X, RAMP_Y, STEEP, MARGIN, LEAST],
    },
];

/// `--tile N`
const TILE: ArgumentRow = ArgumentRow {
    name: "tile",
    is_option: true,
    parser: ValueParser::Signed(2, 128),
    defaults: &["64"],
    help: "Pixels along a side of a tile, from 2 to 128, else 64, as in --tile 32",
};

/// `--rule R`. Whoever reads the matches tests the name.
const RULE: ArgumentRow = ArgumentRow {
    name: "rule",
    is_option: true,
    parser: ValueParser::String,
    defaults: &["least"],
    help: "How two pixels weigh their edge: least, mean or product, else least, as in --rule mean",
};

/// `--ramp-x N`
const RAMP_X: ArgumentRow = ArgumentRow {
    name: "ramp-x",
    is_option: true,
    parser: ValueParser::Signed(0, 65535),
    defaults: &["0"],
    help: "What the phase is expected to rise from a pixel to its right neighbour, in 1/65536 cycle, from 0 to 65535; from 32768 on it falls, by 65536 less the number. Else 0, as in --ramp-x 52429",
};

/// `--ramp-y N`
const RAMP_Y: ArgumentRow = ArgumentRow {
    name: "ramp-y",
    is_option: true,
    parser: ValueParser::Signed(0, 65535),
    defaults: &["0"],
    help: "What the phase is expected to rise from a pixel to its lower neighbour, in 1/65536 cycle, as --ramp-x says. Else 0, as in --ramp-y 52429",
};

/// `--steep Q`
const STEEP: ArgumentRow = ArgumentRow {
    name: "steep",
    is_option: true,
    parser: ValueParser::Signed(1, 16),
    defaults: &["1"],
    help: "How many times as much as the first cycle of a departure each further one costs, from 1 to 16, else 1, as in --steep 4",
};

/// `--workers N`
const WORKERS: ArgumentRow = ArgumentRow {
    name: "workers",
    is_option: true,
    parser: ValueParser::Signed(1, 8),
    defaults: &["2"],
    help: "How many workers solve at once, from 1 to 8, else 2, as in --workers 4",
};

/// `--readers N`
const READERS: ArgumentRow = ArgumentRow {
    name: "readers",
    is_option: true,
    parser: ValueParser::Signed(1, 8),
    defaults: &["1"],
    help: "How many readers look at the newest surface at once, from 1 to 8, else 1, as in --readers 3",
};

/// `--reads N`
const READS: ArgumentRow = ArgumentRow {
    name: "reads",
    is_option: true,
    parser: ValueParser::Signed(1, 4096),
    defaults: &["16"],
    help: "How often each reader looks, from 1 to 4096, else 16, as in --reads 100",
};

/// `SEED`
const SEED: ArgumentRow = ArgumentRow {
    name: "seed",
    is_option: false,
    parser: ValueParser::Unsigned(0, u64::MAX),
    defaults: &[],
    help: "The number that the test session is made from, below 2^64, as in 7",
};

/// `WIDTH`
const WIDTH: ArgumentRow = ArgumentRow {
    name: "width",
    is_option: false,
    parser: ValueParser::Signed(1, 4096),
    defaults: &[],
    help: "Pixels in a row of the raster, from 1 to 4096, as in 640",
};

/// `HEIGHT`
const HEIGHT: ArgumentRow = ArgumentRow {
    name: "height",
    is_option: false,
    parser: ValueParser::Signed(1, 4096),
    defaults: &[],
    help: "Rows of pixels in the raster, from 1 to 4096, as in 480",
};

/// `--weight N`
const WEIGHT: ArgumentRow = ArgumentRow {
    name: "weight",
    is_option: true,
    parser: ValueParser::Signed(0, 65535),
    defaults: &["0"],
    help: "The least weight of a strong pixel, from 0 to 65535, else 0, as in --weight 20",
};

/// `--radius N`
const RADIUS: ArgumentRow = ArgumentRow {
    name: "radius",
    is_option: true,
    parser: ValueParser::Signed(0, 64),
    defaults: &["0"],
    help: "How many columns and rows a near pixel may be away, from 0 to 64, else 0, as in --radius 3",
};

/// `--count N`
const COUNT: ArgumentRow = ArgumentRow {
    name: "count",
    is_option: true,
    parser: ValueParser::Signed(0, 16641),
    defaults: &["0"],
    help: "The least number of near strong pixels, itself included, from 0 to 16641, else 0, as in --count 9",
};

/// `--patch N`
const PATCH: ArgumentRow = ArgumentRow {
    name: "patch",
    is_option: true,
    parser: ValueParser::Signed(0, 4194304),
    defaults: &["0"],
    help: "The least number of pixels of a patch, from 0 to 4194304, else 0, as in --patch 50",
};

/// `--wavelength N`
const WAVELENGTH: ArgumentRow = ArgumentRow {
    name: "wavelength",
    is_option: true,
    parser: ValueParser::Signed(1, 1000000000),
    defaults: &[],
    help: "The wavelength of the radar in nanometres, from 1 to 1000000000, as in --wavelength 55465763",
};

/// `--x N`
const X: ArgumentRow = ArgumentRow {
    name: "x",
    is_option: true,
    parser: ValueParser::Signed(0, 4095),
    defaults: &["0"],
    help: "The column of the pixel that did not move, from 0 to 4095, else 0, as in --x 120",
};

/// `--y N`
const Y: ArgumentRow = ArgumentRow {
    name: "y",
    is_option: true,
    parser: ValueParser::Signed(0, 4095),
    defaults: &["0"],
    help: "The row of the pixel that did not move, from 0 to 4095, else 0, as in --y 8",
};

/// `--block N`
const BLOCK: ArgumentRow = ArgumentRow {
    name: "block",
    is_option: true,
    parser: ValueParser::Signed(1, 64),
    defaults: &["1"],
    help: "Pixels along a side of the blocks that are averaged, from 1 to 64, else 1, as in --block 4",
};

/// `--margin T`
const MARGIN: ArgumentRow = ArgumentRow {
    name: "margin",
    is_option: true,
    parser: ValueParser::Signed(0, 4294967295),
    defaults: &["0"],
    help: "How much more a surface may cost that has the same cycles in each part, from 0 to 4294967295, else 0, as in --margin 500",
};

/// `--least N`
const LEAST: ArgumentRow = ArgumentRow {
    name: "least",
    is_option: true,
    parser: ValueParser::Signed(1, 4194304),
    defaults: &["1"],
    help: "The least number of pixels of a part, from 1 to 4194304, else 1, as in --least 50",
};
