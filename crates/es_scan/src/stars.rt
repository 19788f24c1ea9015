ghost use Rattle.std.specs.Prelude.{◌≡◌, IfOk};
ghost use Rattle.es_scan.specs.Stars.{is_declaration, stars_by};

use crate::list::one;
use form_shapes::{Shape, Standing};
use graph_types::Star;
use pack_util::{NoMemory, Seq};
use std::alloc::Global;

/// The star of what stands at a token.
#[tactic(auto, unfolding(crate::specs::Stars::stars_by))]
pub(crate) fn stars_by(alloc: Global, item: u32, standing: Standing) -> Result<Seq<Star>, NoMemory>
    ensures { IfOk result (λ stars. stars ≡ stars_by item standing) }
{
    match standing {
        Standing::Declaration(form) if form.shape == Shape::StarExport => one(alloc, Star { item }),
        _ => Ok(Seq::new(alloc)),
    }
}

/// Whether an import or an export declaration stands at a token.
pub(crate) fn is_declaration(standing: Standing) -> bool
    ensures { result ≡ is_declaration standing }
{
    matches!(standing, Standing::Declaration(_))
}
