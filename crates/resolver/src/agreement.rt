// Whether a module defines what its head asks for.
ghost use Rattle.std.specs.Prelude.{◌≡◌, Some, map};
ghost use Rattle.std.specs.List.{list_all};
ghost use Rattle.resolver.specs.Trees.{export_tree, head_tree};
ghost use Rattle.resolver.specs.Drafts.{definitions_in, function_names, definition_named, takes_as_many, is_there, has_main, agrees};
ghost use Rattle.resolver.specs.Parts.{top_of, param_counts, distinct};

use crate::built_head::{BuiltHead, Export};
use crate::imports::import_primitive;
use crate::tops::TopForm;
use name_table::NameTable;
use scheme_data::Text;

/// The functions that top-level forms define: their names, of which none stands twice, and how many parameters each has, in the same order.
#[derive(Clone, Copy)]
pub struct Defined<'a> {
    pub tops: &'a [TopForm<'a>],
    pub names: &'a NameTable,
    pub counts: &'a [usize],
    pub ghost listed: { Some names.now ≡ distinct (Some (function_names (definitions_in (map top_of tops.now)))) },
    pub ghost counted: { counts.now ≡ param_counts (definitions_in (map top_of tops.now)) },
}

impl Defined<'_> {
    /// Whether a function of this name is defined with so many parameters.
    fn takes_as_many(&self, count: usize, name: &[u8]) -> bool
        ensures { result ≡ takes_as_many count (definition_named (definitions_in (map top_of self.now.tops.now)) name.now) }
    {
        match self.names.position(name) {
            None => false,
            Some(place) => self.counts[place] == count,
        }
    }

    /// Whether each function that is exported is defined with as many parameters.
    fn has_exports(&self, exports: &[Export]) -> bool
        ensures { result ≡ list_all (is_there (definitions_in (map top_of self.now.tops.now))) (map export_tree exports.now) }
    {
        for export in exports {
            if !self.takes_as_many(export.count, export.name.as_bytes()) {
                return false;
            }
        }
        true
    }

    /// Whether the main function, if there is one, is defined with one parameter.
    fn has_main(&self, main: &Option<Text>) -> bool
        ensures { result ≡ has_main main.now (definitions_in (map top_of self.now.tops.now)) }
    {
        match main {
            None => true,
            Some(name) => self.takes_as_many(1, name.as_bytes()),
        }
    }

    /// Whether no primitive is imported, and the functions that the head names are there.
    pub fn agrees(&self, head: &BuiltHead) -> bool
        ensures { result ≡ agrees (head_tree head.now) (definitions_in (map top_of self.now.tops.now)) }
    {
        if import_primitive(head.imports.as_slice()) {
            return false;
        }
        self.has_exports(head.exports.as_slice()) && self.has_main(&head.main)
    }
}
