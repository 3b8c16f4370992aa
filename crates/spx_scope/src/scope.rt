// Regions, one inside another (Ada 95 RM 8.1, 8.3).
ghost use Rattle.std.specs.Prelude.{◌≡◌, [], ◌∷◌, is_some};
ghost use Rattle.spx_core.specs.Regions.{declared_in, denoted, hidden, standard};
ghost use Rattle.spx_scope.specs.Seen.{seen};

use crate::{Region, Standard};
use spx_core::Entity;
use spx_text::Text;
use spx_tree::Identifier;

/// The regions around a place.
#[derive(Clone, Copy)]
pub enum Scope<'a> {
    Outermost(&'a Standard),
    Inside(&'a Region, &'a Scope<'a>),
    /// Names whose declaration has not ended.
    Hiding(&'a [Identifier], &'a Scope<'a>),
}

/// What a name denotes by declarations of these names that have not ended.
fn hidden_by(names: &[Identifier], name: &Text) -> Option<Option<Entity>>
    ensures { result ≡ declared_in (hidden names.now) name.now }
{
    for declared in names {
        if name.is_same_word(&declared.text) {
            return Some(None);
        }
    }
    None
}

impl<'a> Scope<'a> {
    /// Only what is declared everywhere.
    #[tactic(auto, unfolding(crate::specs::Seen::seen))]
    pub fn outermost(everywhere: &'a Standard) -> Scope<'a>
        ensures { seen result ≡ standard ∷ [] }
    {
        Scope::Outermost(everywhere)
    }

    /// A region inside others.
    #[tactic(auto, unfolding(crate::specs::Seen::seen))]
    pub fn inside(region: &'a Region, outer: &'a Scope<'a>) -> Scope<'a>
        ensures { seen result ≡ region.now ∷ seen outer.now }
    {
        Scope::Inside(region, outer)
    }

    /// A place inside the declaration of names, each of which is hidden until its end.
    #[tactic(auto, unfolding(crate::specs::Seen::seen))]
    pub fn hiding(names: &'a [Identifier], outer: &'a Scope<'a>) -> Scope<'a>
        ensures { seen result ≡ hidden names.now ∷ seen outer.now }
    {
        Scope::Hiding(names, outer)
    }

    /// What a name denotes: a look-up in each region, the innermost first.
    #[tactic(auto, unfolding(crate::specs::Seen::seen))]
    pub fn look_up(&self, name: &Text) -> Option<Entity>
        ensures { result ≡ denoted (seen self.now) name.now }
    {
        match self {
            Scope::Outermost(everywhere) => match everywhere.region().get(name) {
                Some(entity) => entity,
                None => None,
            },
            Scope::Inside(region, outer) => match region.get(name) {
                Some(entity) => entity,
                None => outer.look_up(name),
            },
            Scope::Hiding(names, outer) => match hidden_by(names, name) {
                Some(entity) => entity,
                None => outer.look_up(name),
            },
        }
    }

    /// Whether the name is declared everywhere.
    pub fn is_predefined(&self, name: &Text) -> bool
        ensures { result ≡ is_some (declared_in standard name.now) }
    {
        match self {
            Scope::Outermost(everywhere) => everywhere.region().get(name).is_some(),
            Scope::Inside(_, outer) => outer.is_predefined(name),
            Scope::Hiding(_, outer) => outer.is_predefined(name),
        }
    }
}
