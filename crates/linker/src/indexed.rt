ghost use Rattle.std.specs.Prelude.{◌≡◌, map};

use name_table::NameTable;
use object_text::Object;

/// An object, and the names of its exports, each in the place of its row.
#[derive(Drop)]
pub struct Indexed {
    pub object: Object,
    pub exported: NameTable,
    pub ghost named: { exported ≡ map (λ r. r.name) object.exports },
}
