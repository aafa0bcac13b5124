ghost use Rattle.std.specs.Prelude.{◌≡◌, ◌≤◌, ◌&&◌, length, map, drop};
ghost use Rattle.scheme_data.specs.Forms.{form, forms};
ghost use Rattle.syntax_rules.specs.Matching.{matches, all_match, every};
ghost use Rattle.syntax_rules.specs.TreeViews.{the_pattern, in_turn, parts};
ghost use Rattle.syntax_rules.specs.Trees.{Patterns};

use crate::tree::Pattern;
use crate::words::says;
use scheme_data::Datum;

impl Pattern {
    /// Whether a datum is as it has to be.
    #[cycle(matching)]
    pub(crate) fn matches(&self, d: &Datum) -> bool
        ensures { result ≡ matches (the_pattern self.now) (form d.now) }
    {
        match self {
            Pattern::Any => true,
            Pattern::Literal(name) => says(d, name.as_bytes()),
            Pattern::Constant(constant) => constant.is(d),
            Pattern::Exactly(_) => match d {
                Datum::List(_, ds) => self.parts_match(ds.as_slice()),
                _ => false,
            },
            Pattern::Dots(_, _) => match d {
                Datum::List(_, ds) => self.parts_match(ds.as_slice()),
                _ => false,
            },
        }
    }

    /// Whether the data of a list are as those of its list have to be.
    #[cycle(matching)]
    pub(crate) fn parts_match(&self, ds: &[Datum]) -> bool
        ensures { result ≡ all_match (parts (the_pattern self.now)) (forms (map form ds.now)) }
    {
        match self {
            Pattern::Exactly(ps) => {
                if ps.len() != ds.len() {
                    return false;
                }
                first_match(ps.as_slice(), ds)
            }
            Pattern::Dots(ps, p) => {
                if ps.len() > ds.len() {
                    return false;
                }
                if !first_match(ps.as_slice(), ds) {
                    return false;
                }
                each_matches(p.get(), &ds[ps.len()..])
            }
            Pattern::Any => ds.is_empty(),
            Pattern::Literal(_) => ds.is_empty(),
            Pattern::Constant(_) => ds.is_empty(),
        }
    }
}

/// Whether the first data match these patterns, one each.
#[cycle(matching)]
fn first_match(ps: &[Pattern], ds: &[Datum]) -> bool
    requires { length ps.now ≤ length ds.now }
    ensures { (rest : Patterns) → all_match (in_turn (map the_pattern ps.now) rest) (forms (map form ds.now)) ≡ (result && all_match rest (forms (map form (drop (length ps.now) ds.now)))) }
{
    for i in 0..ps.len() {
        if !ps[i].matches(&ds[i]) {
            return false;
        }
    }
    true
}

/// Whether each of the data matches.
#[cycle(matching)]
fn each_matches(p: &Pattern, ds: &[Datum]) -> bool
    ensures { result ≡ every (matches (the_pattern p.now)) (forms (map form ds.now)) }
{
    for d in ds {
        if !p.matches(d) {
            return false;
        }
    }
    true
}
