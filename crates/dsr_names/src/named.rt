// Items that may have a name: those of declared tables.
ghost use Rattle.std.specs.Prelude.{◌≡◌};

use dsr_ir::{Field, Kind, Name, Pool, Rel, SetDecl};

/// An item that may have a name.
pub trait Named {
    ghost use Rattle.std.specs.Prelude.{◌≡◌, Option, List, ℕ, option_map};

    ghost own_name: { Self → Option (List ℕ) };

    /// The name under which the item is entered.
    fn own_name(&self) -> Option<&Name>
        ensures { option_map (λ n. n.now) result ≡ own_name self.now };
}

impl Named for Field {
    ghost use Rattle.dsr_names.specs.Tables.{field_name};

    ghost own_name = { field_name };

    fn own_name(&self) -> Option<&Name> {
        match self.kind {
            Kind::Gap => None,
            _ => Some(&self.name),
        }
    }
}

impl Named for Pool {
    ghost use Rattle.std.specs.Prelude.{Some};

    ghost own_name = { λ p. Some p.name };

    fn own_name(&self) -> Option<&Name> {
        Some(&self.name)
    }
}

impl Named for SetDecl {
    ghost use Rattle.std.specs.Prelude.{Some};

    ghost own_name = { λ s. Some s.name };

    fn own_name(&self) -> Option<&Name> {
        Some(&self.name)
    }
}

impl Named for Rel {
    ghost use Rattle.std.specs.Prelude.{Some};

    ghost own_name = { λ r. Some r.name };

    fn own_name(&self) -> Option<&Name> {
        Some(&self.name)
    }
}
