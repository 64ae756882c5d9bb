// Frames worked out by hand: their words are those of the definitions.
#![tactic(auto)]

ghost use Rattle.worked.specs.Frames.{WorkedFrames};
ghost use Rattle.std.specs.Prelude.{◌≡◌};

// How many worked frames there are.
pub fn worked_frames() -> u32
    ensures count { result ≡ 10 }
    ensures frames { WorkedFrames }
{
    10
}
