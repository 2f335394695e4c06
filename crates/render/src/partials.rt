//! Partials are seen by a relation, so a site without sources can state it.

ghost use Rattle.std.specs.Prelude.{◌≡◌, ℕ, List, Option, MatchOption};
ghost use Rattle.mustache_parse.specs.Template.{IsTemplateOf};

use mustache_parse::Template;

/// The partials that a page may use.
pub trait Partials {
    /// The relation: the partials are of these texts, by name.
    ghost stands: { Self → (List ℕ → Option (List ℕ)) → Type 0 };

    /// The partial of that name, if there is one.
    fn find(&self, name: &str) -> Option<&Template>
        ensures { (texts : List ℕ → Option (List ℕ)) → stands self.now texts
            → MatchOption result (texts name.now ≡ None)
            (λ t. (x : List ℕ) × (texts name.now ≡ Some x) × IsTemplateOf t.now x) };
}
