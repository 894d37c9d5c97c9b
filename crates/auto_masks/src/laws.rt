//! Laws of the definitions. The functions do nothing; each contract is the law.

ghost use Rattle.auto_masks.specs.Laws.{
  AllPassingPixelsStay,
  OnlyPassingPixelsStay,
  TwiceCanBeLess,
  TwiceIsOnce,
  TwiceKeepsWhatPasses,
};

/// Screening opens no pixel, and leaves none open that does not pass. With a patch of 0 or 1 it leaves all open that pass.
pub fn what_passes_stays()
    ensures only { OnlyPassingPixelsStay }
    ensures all { AllPassingPixelsStay }
{}

/// With a patch of 0 or 1 screening twice leaves what passes under the first mask that it makes. That is the same mask
/// again with a count of at most 2 or the radius 0. With a greater count it may be less, since pixels that were masked
/// count no more.
pub fn screening_twice()
    ensures passing { TwiceKeepsWhatPasses }
    ensures same { TwiceIsOnce }
    ensures less { TwiceCanBeLess }
{}
