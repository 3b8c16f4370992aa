//! Laws of the definitions, each as the contract of a function that does nothing.
ghost use Rattle.spx_linear.specs.Linear.{LinearFormIsMeant};
ghost use Rattle.spx_linear.specs.Refutation.{RefutationIsSound};

/// A well-sorted comparison holds where its form does, and nowhere else.
pub fn linear_form_is_meant()
    ensures { LinearFormIsMeant }
{}

/// No values of the names make forms hold that are refuted.
pub fn refutation_is_sound()
    ensures { RefutationIsSound }
{}
