ghost use Rattle.std.specs.Prelude.{◌≡◌, IfOk, map};
ghost use Rattle.ga_totals.specs.Steps.Sources.{AreSizes};

use ga_base::{NoMemory, Panel};
use ga_numbers::KeyNumbers;
use std::alloc::Global;

/// The panel of each key, at its number.
pub(crate) fn panels_of(alloc: Global, keys: &KeyNumbers) -> Result<Vec<Panel>, NoMemory>
    ensures { IfOk result (λ panels. panels.items ≡ map (λ key. key.panel) keys.now) }
{
    let mut panels = Vec::with_capacity(alloc, keys.len() as usize)?;
    for number in 0..keys.len() {
        panels.push(keys.get(number).shared.panel)?;
    }
    Ok(panels)
}

/// How many of these each panel is, at the panel's number.
pub(crate) fn sizes_of(panels: &[Panel]) -> [u64; Panel::COUNT]
    ensures { AreSizes panels.now result }
{
    let mut sizes = [0u64; Panel::COUNT];
    for panel in panels {
        sizes[panel.number()] += 1;
    }
    sizes
}
