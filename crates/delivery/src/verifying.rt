// Filed certificates, judged against the drawings of a layout's areas.
ghost use Rattle.std.specs.Prelude.{◌≡◌, ◌↔◌, ℕ, List, ◌<◌, ◌^◌, length, IfOk, IsTrue};
ghost use Rattle.std.specs.List.{All, AllByRecursion, AllZip};
ghost use Rattle.area_drawings.specs.AreaLimits.{IsSmallPlan};
ghost use Rattle.area_drawings.specs.KeptViews.{HasTolerance};
ghost use Rattle.certificate.specs.Spelling.{ArePaired, view, views};
ghost use Rattle.certificate_checker.specs.Verdicts.{IsVerdictBy};
ghost use Rattle.plane.specs.Rule.Plans.{plan};
ghost use Rattle.table_layout.specs.Values.{area_view, areas_view, layout_view};
ghost use Rattle.reports.specs.AreaKinds.{plans};
ghost use Rattle.delivery.specs.AreaCertificates.{IsNamedFor, claims_of};
ghost use Rattle.reports.specs.VerificationViews.{verification_of};
ghost use Rattle.delivery.specs.Verifying.{AreChecked, IsFirstMisnamed, IsLineOf, IsNamedAt};
ghost use Rattle.delivery.specs.FiledLists.{IsReadOf};
ghost use Rattle.delivery.specs.Verifying.{AreFiledIn, IsVerification};

use crate::filed::FiledList;
use certificate::{CertFault, Certificate};
use certificate_checker::{Verdict, check};
use plane::Drawing;
use ports::Memory;
use reports::{Verification, table_name, topic_name};
use std::alloc::Global;
use table_layout::{AreaOf, Layout};

// The line of a fault of the text.
fn line_of(fault: CertFault) -> Result<u32, Memory>
    ensures { IfOk result (IsLineOf fault) }
{
    match fault {
        CertFault::Line(line) => Ok(line),
        CertFault::Number(line) => Ok(line),
        CertFault::Short(line) => Ok(line),
        CertFault::Memory => Err(Memory),
    }
}

// The certificate has the names of the area.
fn is_named_for(layout: &Layout, area: &AreaOf, certificate: &Certificate) -> bool
    ensures { IsTrue result ↔ IsNamedFor (layout_view layout.now) (area_view area.now)
        (view certificate.now) }
{
    certificate.topic.bytes() == topic_name(layout, area)
        && certificate.table.bytes() == table_name(layout, area)
        && certificate.attribute.bytes() == area.name.bytes()
}

// The certificate of that number has the names of the area of that number.
fn is_named_at(layout: &Layout, certificates: &[Certificate], number: usize) -> bool
    requires { number < length certificates.now }
    ensures { IsTrue result ↔ IsNamedAt (layout_view layout.now) (views certificates.now) number }
{
    match layout.areas.get(number) {
        Some(area) => is_named_for(layout, area, &certificates[number]),
        None => false,
    }
}

// The number of the first certificate that is missing, surplus or of another name.
fn first_misnamed(layout: &Layout, certificates: &[Certificate]) -> Option<u32>
    requires { length certificates.now < 2 ^ 32 }
    ensures { IsFirstMisnamed (layout_view layout.now) (views certificates.now) result }
{
    for number in 0..certificates.len() {
        if !is_named_at(layout, certificates, number) {
            return Some(number as u32);
        }
    }
    if certificates.len() < layout.areas.len() {
        return Some(certificates.len() as u32);
    }
    None
}

// The verdict on a certificate, by its text.
fn check_one(alloc: Global, drawing: &Drawing, certificate: &Certificate) -> Result<Verdict, Memory>
    requires small { IsSmallPlan (plan drawing.now) }
    requires paired { ArePaired certificate.now.notes.items }
    ensures { IfOk result (IsVerdictBy drawing.now.tolerance (plan drawing.now)
        certificate.now.bent (claims_of (view certificate.now))) }
{
    check(alloc, drawing, certificate)
}

// Checks each certificate against its drawing.
fn check_all(
    alloc: Global,
    layout: &Layout,
    drawings: &[Drawing],
    certificates: &[Certificate],
) -> Result<Verification, Memory>
    requires count { length drawings.now ≡ length certificates.now }
    requires small { All IsSmallPlan (plans drawings.now) }
    requires tolerances { AllZip (HasTolerance (layout_view layout.now))
        (areas_view layout.now.areas.items) drawings.now }
    requires few { length certificates.now < 2 ^ 32 }
    requires paired { AllByRecursion (λ c. ArePaired c.notes.items) certificates.now }
    ensures { IfOk result (λ v. AreChecked (layout_view layout.now) (plans drawings.now)
        (views certificates.now) (verification_of v)) }
{
    let _ = layout;
    let mut levels = Vec::new(alloc);
    for number in 0..certificates.len() {
        match check_one(alloc, &drawings[number], &certificates[number])? {
            Verdict::Proved => levels.push(certificates[number].level)?,
            Verdict::NotProved { rule, place } => {
                return Ok(Verification::NotProved {
                    area: number as u32,
                    rule,
                    place,
                });
            }
        }
    }
    Ok(Verification::Proved(levels))
}

// What a list of certificates proves, whatever text spells it.
fn verify_list(
    alloc: Global,
    layout: &Layout,
    drawings: &[Drawing],
    certificates: &[Certificate],
) -> Result<Verification, Memory>
    requires drawn { length drawings.now ≡ length layout.now.areas.items }
    requires small { All IsSmallPlan (plans drawings.now) }
    requires tolerances { AllZip (HasTolerance (layout_view layout.now))
        (areas_view layout.now.areas.items) drawings.now }
    requires few { length certificates.now < 2 ^ 32 }
    requires paired { AllByRecursion (λ c. ArePaired c.notes.items) certificates.now }
    ensures { IfOk result (λ v. (text : List ℕ) → AreFiledIn text (views certificates.now)
        → IsVerification (layout_view layout.now) (plans drawings.now) text (verification_of v)) }
{
    match first_misnamed(layout, certificates) {
        Some(area) => Ok(Verification::NotProved {
            area,
            rule: 1,
            place: area,
        }),
        None => check_all(alloc, layout, drawings, certificates),
    }
}

/// Judges what a text of certificates is read as against the drawings of all areas, in order: the
/// text spells a list, which has a certificate for each area by its names, and each proves its
/// drawing or what becomes of it when its forks are bent, as it says. The first rule that is broken
/// counts. The only error is out of memory.
///
/// Cost: the drawings are checked one after the other, each at the cost that `certificate_checker`
/// says.
pub fn verify_areas(
    alloc: Global,
    layout: &Layout,
    drawings: &[Drawing],
    filed: FiledList,
) -> Result<Verification, Memory>
    requires drawn { length drawings.now ≡ length layout.now.areas.items }
    requires small { All IsSmallPlan (plans drawings.now) }
    requires tolerances { AllZip (HasTolerance (layout_view layout.now))
        (areas_view layout.now.areas.items) drawings.now }
    requires text { (text : List ℕ) × IsReadOf text filed }
    ensures { (text : List ℕ) → IsReadOf text filed
        → IfOk result (λ v. IsVerification (layout_view layout.now) (plans drawings.now)
        text (verification_of v)) }
{
    match filed {
        Ok(certificates) => verify_list(alloc, layout, drawings, &certificates),
        Err(fault) => Ok(Verification::NotProved {
            area: 0,
            rule: 0,
            place: line_of(fault)?,
        }),
    }
}
