ghost use Rattle.raster_model.specs.Limits.{max_tiled_side};
ghost use Rattle.sums_and_lists.specs.Sums.{one_if};
ghost use Rattle.std.specs.Prelude.{◌≡◌, ◌<◌, ◌≤◌};
ghost use Rattle.trial_maker.specs.Trials.{is_open, next as next_of, phase_of as phase_is, weight_of as weight_is};

/// Knuth's multiplier, as in MMIX.
const MULTIPLIER: u64 = 6_364_136_223_846_793_005;

/// What each step adds.
const INCREMENT: u64 = 1_442_695_040_888_963_407;

/// The greatest weight of a pixel.
pub(crate) const MAX_TRIAL_WEIGHT: u16 = 256;

/// How many weights there are.
const WEIGHTS: u64 = 256;

/// The number after this one.
pub fn next(state: u64) -> u64
    ensures { result ≡ next_of state }
{
    state.wrapping_mul(MULTIPLIER).wrapping_add(INCREMENT)
}

/// The phase of a pixel by its number, in units of 1/65536 cycle: two slopes and a noise of up to 5/8 cycle.
pub fn phase_of(state: u64, x: u32, y: u32) -> u16
    requires across { x < max_tiled_side }
    requires along { y < max_tiled_side }
    ensures { result ≡ phase_is state x y }
{
    let noise = (state >> 48) as u32 * 5 / 8;
    ((700 * x + 300 * y + noise) % 65536) as u16
}

/// The weight of a pixel by its number, from 1 to [`MAX_TRIAL_WEIGHT`].
pub fn weight_of(state: u64) -> u16
    ensures value { result ≡ weight_is state }
    ensures small { result ≤ MAX_TRIAL_WEIGHT }
{
    1 + ((state >> 32) % WEIGHTS) as u16
}

/// The mask's sample of a pixel by its number: 0 if it is masked, and otherwise 1.
pub fn mask_of(state: u64) -> u16
    ensures value { result ≡ one_if (is_open state) }
    ensures small { result ≤ 1 }
{
    if (state >> 20) % 16 == 0 { 0 } else { 1 }
}
