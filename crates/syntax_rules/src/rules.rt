ghost use Rattle.std.specs.Prelude.{◌≡◌, true};
ghost use Rattle.syntax_rules.specs.TreeViews.{the_template, is_single};

use crate::tree::{Path, Pattern, Template};
use scheme_data::Text;
use sqlite_items::Items;

/// A pattern, the ways to its names, and a template.
#[derive(Drop)]
pub struct Rule {
    pub pattern: Pattern,
    pub paths: Items<Path>,
    pub template: Template,
    pub ghost single: { is_single (the_template template) ≡ true },
}

/// The rules of one macro.
#[derive(Drop)]
pub struct Rules {
    pub(crate) name: Text,
    pub(crate) rules: Items<Rule>,
}
