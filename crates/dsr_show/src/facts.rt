// The facts of a symbol, one behind the other.
ghost use Rattle.std.specs.Prelude.{IfSome};
ghost use Rattle.dsr_meaning.specs.Looking.{FindsNextFact};
ghost use Rattle.dsr_model.specs.Facts.{IsInModel, MayBeOf};

use crate::images::ImageModel;
use dsr_ir::{Fact, Symbol};

/// The fact of a symbol that comes after this one, or the first one.
pub fn fact_after(image: &ImageModel<'_>, symbol: Symbol, last: Option<Fact>) -> Option<Fact>
    requires { IfSome last (MayBeOf image.now.model symbol) }
    ensures next { FindsNextFact (IsInModel image.now.model) symbol last result }
    ensures kind { IfSome result (MayBeOf image.now.model symbol) }
{
    image.model.after(symbol, last)
}
