//! Boards of this repository that the laws of whole boards hold of. No function here does anything: each promises a
//! law, which its specs state and its proof file proves.

ghost use Rattle.laws.specs.Samples.{SamplesInPitch, SamplesAccepted, SamplesFit, SamplesAreJoined};

/// The rings of the neck and of the comb are in pitch, and build accepts both boards.
#[tactic(auto, using(crate::proofs::SampleBoards::computed))]
pub fn samples_in_pitch()
    ensures in_pitch { SamplesInPitch }
    ensures accepted { SamplesAccepted }
{}

/// So their roots fit, and refined in any way and balanced they have every side of a leaf joined.
pub fn samples_fit()
    ensures fit { SamplesFit }
    ensures joined { SamplesAreJoined }
{}
