//! Laws of the definitions: functions that do nothing, each for the law that its contract states.

ghost use Rattle.std.specs.Prelude.{◌≡◌, ℕ, List, Option};
ghost use Rattle.std.specs.List.{Contains};
ghost use Rattle.ga_requests.specs.Requests.{IsRequestLine, HasParts, space};
ghost use Rattle.ga_requests.specs.Referrers.{SiteIs, KeyphraseIs};

/// A text has one method, one target and one protocol.
pub fn one_split()
    ensures { (text method target protocol other_method other_target other_protocol : List ℕ) →
        HasParts text method target protocol → HasParts text other_method other_target other_protocol →
        (method ≡ other_method) × (target ≡ other_target) × (protocol ≡ other_protocol) }
{}

/// A request line is cut at its first and its last space, since no method and no protocol holds one.
pub fn cut_at_first_and_last_space()
    ensures { (text method target protocol : List ℕ) → IsRequestLine text method target protocol →
        (Contains method space → ⊥) × (Contains protocol space → ⊥) }
{}

/// A referrer names one site, or none.
pub fn one_site()
    ensures { (referrer : List ℕ) (site other : Option (List ℕ)) →
        SiteIs referrer site → SiteIs referrer other → site ≡ other }
{}

/// A referrer has one key phrase, or none.
pub fn one_keyphrase()
    ensures { (referrer : List ℕ) (phrase other : Option (List ℕ)) →
        KeyphraseIs referrer phrase → KeyphraseIs referrer other → phrase ≡ other }
{}
