ghost use Rattle.std.specs.Prelude.{IfOk};
ghost use Rattle.ga_base.specs.declared.panel.Panel.TheVariants.{Visitors};
ghost use Rattle.ga_report.specs.Items.{shown_rows};
ghost use Rattle.ga_report.specs.Steps.RowPlaces.{AreAt};
ghost use Rattle.ga_report.specs.Steps.Summed.{panel_rows};

use crate::RowSource;
use ga_base::laws::panel_order;
use ga_base::{DateSpec, NoMemory, Panel};
use std::alloc::Global;

/// The places of a panel's rows, in their order. It takes the time of one look at the panel of each row, up to the last of
/// these where `at_most` is exact, and none where there can be none; and the memory of a number for each of them.
pub(crate) fn places_of<T: RowSource>(
    alloc: Global,
    source: &T,
    panel: Panel,
) -> Result<Vec<u64>, NoMemory>
    ensures { IfOk result (λ places. AreAt (T.view source.now).rows places.items (panel_rows panel (T.view source.now).rows)) }
{
    panel_order();
    let most = source.at_most(panel);
    let mut places = Vec::new(alloc);
    for at in 0..source.len() {
        if places.len() as u64 >= most {
            break;
        }
        if source.panel(at) == panel {
            places.push(at)?;
        }
    }
    Ok(places)
}

/// The places of a panel's rows that a report shows, in their order: of VISITORS those as fine as this, of other panels all.
pub(crate) fn shown_places<T: RowSource>(
    alloc: Global,
    source: &T,
    panel: Panel,
    spec: DateSpec,
) -> Result<Vec<u64>, NoMemory>
    ensures { IfOk result (λ places. AreAt (T.view source.now).rows places.items
        (panel_rows panel (shown_rows spec (T.view source.now).rows))) }
{
    panel_order();
    let places = places_of(alloc, source, panel)?;
    if panel == Panel::Visitors {
        return fine_places(alloc, source, &places, spec);
    }
    Ok(places)
}

/// Those of the places of VISITORS' rows at which a key is as fine as this.
fn fine_places<T: RowSource>(
    alloc: Global,
    source: &T,
    places: &[u64],
    spec: DateSpec,
) -> Result<Vec<u64>, NoMemory>
    requires { AreAt (T.view source.now).rows places.now (panel_rows Visitors (T.view source.now).rows) }
    ensures { IfOk result (λ fine. AreAt (T.view source.now).rows fine.items
        (panel_rows Visitors (shown_rows spec (T.view source.now).rows))) }
{
    let mut fine = Vec::new(alloc);
    for at in places {
        if source.row(*at).is_as_fine(spec) {
            fine.push(*at)?;
        }
    }
    Ok(fine)
}
