//! The smaller image is accepted, has as few labels as the rule allows, is no longer than the image given, and is itself when it is joined
//! again; theorems as contracts.
#![tactic(auto)]

ghost use Rattle.joined_again.specs.Fewest.{FewestLabels, NeverLonger, CountNoLonger};
ghost use Rattle.joined_again.specs.Again.{SmallerPasses, SmallerEven, SmallerAgain, MinimiseAgain, SmallerCapitals};

/// Of every image that nothing but 16 refuses to make smaller: the smaller image has no more labels than any grouping by the rule has
/// groups, and its text is never longer than the one given.
#[tactic(auto, using(crate::proofs::Texts::joined_image_is_smallest))]
pub fn joined_image_is_smallest()
    ensures fewest_labels { FewestLabels }
    ensures never_longer { NeverLonger }
    ensures count { CountNoLonger }
{}

/// The smaller image is accepted, 23 does not refuse it, and joined again it is itself, as an image and as the text that `minimise` writes,
/// which is in capitals.
#[tactic(auto, using(crate::proofs::Texts::joined_again_is_itself))]
pub fn joined_again_is_itself()
    ensures accepted { SmallerPasses }
    ensures even { SmallerEven }
    ensures image { SmallerAgain }
    ensures text { MinimiseAgain }
    ensures capitals { SmallerCapitals }
{}
