// What is told of a transfer without a finding: the text of its faults, the report, and the status.
ghost use Rattle.std.specs.Prelude.{◌≡◌, ◌≤◌, length, IfOk};
ghost use Rattle.std.specs.List.{All, AllZip};
ghost use Rattle.area_drawings.specs.AreaLimits.{IsSmallPlan};
ghost use Rattle.area_drawings.specs.KeptViews.{HasTolerance};
ghost use Rattle.itffaults.specs.FaultText.Text.{telling_of, tellings};
ghost use Rattle.plane.specs.Rule.Plans.{plan};
ghost use Rattle.reports.specs.AreaKinds.{plans};
ghost use Rattle.table_layout.specs.Valid.{IsValid};
ghost use Rattle.table_layout.specs.Values.{area_view, areas_view, layout_view, lines_view};
ghost use Rattle.itffaults.specs.Faults.{AreTellings, IsTelling, IsTold, area_scale, scale_by};
ghost use Rattle.itffaults.specs.Faults.{status_of};

use super::fault_text::{AreaTelling, Verdict, all_verdict, fault_report, fault_text};
use area_faults::all_faults;
use delivery::CleanDelivery;
use file_pages::HeldText;
use plane::Drawing;
use ports::Memory;
use reports::{Status, names_of, surface_report};
use resolver::LineForm;
use std::alloc::Global;
use table_layout::{AreaOf, Layout};

/// The text of all faults, the report, and the status.
#[derive(Drop)]
pub struct Telling {
    pub text: HeldText,
    pub report: Vec<u8>,
    pub status: Status,
}

// How many decimals the coordinates of lines of these forms have; a table of lines has one form.
fn scale_by(forms: &[LineForm]) -> u8
    ensures scale { result ≡ scale_by (lines_view forms.now) }
    ensures few { result ≤ 9 }
{
    match forms {
        [form, ..] => form.window.x.scale,
        [] => 0,
    }
}

// How many decimals the coordinates of an area have.
fn area_scale(layout: &Layout, area: &AreaOf) -> u8
    ensures scale { result ≡ area_scale (layout_view layout.now) (area_view area.now) }
    ensures few { result ≤ 9 }
{
    match layout.tables.get(area.lines.0 as usize) {
        Some(table) => scale_by(&table.lines),
        None => 0,
    }
}

// Tells all faults of an area.
fn tell_area<'a>(
    alloc: Global,
    layout: &Layout,
    area: &AreaOf,
    drawing: &'a Drawing,
) -> Result<AreaTelling<'a>, Memory>
    requires small { IsSmallPlan (plan drawing.now) }
    requires tolerance { HasTolerance (layout_view layout.now) (area_view area.now) drawing.now }
    ensures { IfOk result (λ t. IsTelling (layout_view layout.now) (area_view area.now)
        (plan drawing.now) (telling_of t)) }
{
    let names = names_of(alloc, layout, area)?;
    let faults = all_faults(alloc, drawing)?;
    Ok(AreaTelling {
        topic: names.topic,
        table: names.table,
        attribute: names.attribute,
        scale: area_scale(layout, area),
        drawing,
        faults,
    })
}

// Tells all faults of all areas, one after the other.
fn tell_areas<'a>(
    alloc: Global,
    layout: &Layout,
    drawings: &'a [Drawing],
) -> Result<Vec<AreaTelling<'a>>, Memory>
    requires drawn { length drawings.now ≡ length layout.now.areas.items }
    requires small { All IsSmallPlan (plans drawings.now) }
    requires tolerances { AllZip (HasTolerance (layout_view layout.now))
        (areas_view layout.now.areas.items) drawings.now }
    ensures { IfOk result (λ ts. AreTellings (layout_view layout.now)
        (areas_view layout.now.areas.items) (plans drawings.now) (tellings ts.items)) }
{
    let mut areas = Vec::new(alloc);
    for (area, drawing) in layout.areas.iter().zip(drawings) {
        areas.push(tell_area(alloc, layout, area, drawing)?)?;
    }
    Ok(areas)
}

// The status for what is to be said.
fn status_of(verdict: Verdict) -> Status
    ensures { result ≡ status_of verdict }
{
    match verdict {
        Verdict::Clean => Status::Accepted,
        Verdict::Faulty => Status::Rejected,
        Verdict::Unsettled => Status::Undecided,
    }
}

/// Tells all faults of a transfer.
pub fn tell(alloc: Global, clean: &CleanDelivery) -> Result<Telling, Memory>
    requires valid { IsValid (layout_view clean.now.layout) }
    requires drawn { length clean.now.drawings.items ≡ length clean.now.layout.areas.items }
    requires small { All IsSmallPlan (plans clean.now.drawings.items) }
    requires tolerances { AllZip (HasTolerance (layout_view clean.now.layout))
        (areas_view clean.now.layout.areas.items) clean.now.drawings.items }
    ensures { IfOk result (λ t. IsTold (layout_view clean.now.layout)
        (plans clean.now.drawings.items) clean.now.surfaces.items clean.now.objects
        t.text t.report.items t.status) }
{
    let areas = tell_areas(alloc, &clean.layout, &clean.drawings)?;
    let surfaces = surface_report(alloc, &clean.layout, &clean.surfaces)?;
    let verdict = all_verdict(&areas, surfaces.at_fault);
    let text = fault_text(alloc, &areas, &surfaces.lines)?;
    let report = fault_report(alloc, &areas, &surfaces.lines, clean.objects, verdict)?;
    Ok(Telling {
        text,
        report,
        status: status_of(verdict),
    })
}
