// Items that may have a name: those of a text's tree.
ghost use Rattle.std.specs.Prelude.{◌≡◌};

use crate::named::Named;
use dsr_ir::Name;
use dsr_tree::{Constraint, Field, Fresh, Pool, Relation, Set, Structure};

impl Named for Structure {
    ghost use Rattle.std.specs.Prelude.{Some};

    ghost own_name = { λ s. Some s.name.name };

    fn own_name(&self) -> Option<&Name> {
        Some(&self.name.name)
    }
}

impl Named for Field {
    ghost use Rattle.dsr_names.specs.FieldNames.{field_name};

    ghost own_name = { field_name };

    fn own_name(&self) -> Option<&Name> {
        match self {
            Field::Named(field) => Some(&field.name.name),
            Field::Skip { .. } => None,
        }
    }
}

impl Named for Pool {
    ghost use Rattle.std.specs.Prelude.{Some};

    ghost own_name = { λ p. Some p.name.name };

    fn own_name(&self) -> Option<&Name> {
        Some(&self.name.name)
    }
}

impl Named for Set {
    ghost use Rattle.std.specs.Prelude.{Some};

    ghost own_name = { λ s. Some s.name.name };

    fn own_name(&self) -> Option<&Name> {
        Some(&self.name.name)
    }
}

impl Named for Relation {
    ghost use Rattle.std.specs.Prelude.{Some};

    ghost own_name = { λ r. Some r.name.name };

    fn own_name(&self) -> Option<&Name> {
        Some(&self.name.name)
    }
}

// A supply is entered under its pool's name.
impl Named for Fresh {
    ghost use Rattle.std.specs.Prelude.{Some};

    ghost own_name = { λ f. Some f.pool.name };

    fn own_name(&self) -> Option<&Name> {
        Some(&self.pool.name)
    }
}

impl Named for Constraint {
    ghost use Rattle.std.specs.Prelude.{Some};

    ghost own_name = { λ c. Some c.name.name };

    fn own_name(&self) -> Option<&Name> {
        Some(&self.name.name)
    }
}
