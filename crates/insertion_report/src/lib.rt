// The record and the report of a node, from what its tests found.

#![tactic(auto)]

ghost use Rattle.std.specs.Prelude.{Ok, ◌≡◌, ◌≤◌};
ghost use Rattle.insertion.specs.Inserted.{as_inserted};
ghost use Rattle.insertion.specs.Inner.{found_of, report_with, accepted_with};

use insertion::{Insertion, Replacement, Report};
use mesh::Mesh;

#[tactic(auto, unfolding(insertion::specs::Inner::report_with))]
pub fn report(mesh: Mesh, replacement: Replacement) -> Report
    requires { (replacement.extent.before ≤ 4096) × (replacement.extent.after ≤ 4096) × (replacement.made ≤ 16384) }
    ensures { result ≡ report_with mesh (found_of replacement) }
{
    let extent = replacement.extent;
    Report {
        point: mesh.points,
        before: extent.before as u32,
        after: extent.after as u32,
        made: replacement.made as u32,
        least: extent.least,
    }
}

// With this chain and used length after.
#[tactic(auto, unfolding(insertion::specs::Inner::accepted_with, insertion::specs::Inner::report_with))]
pub fn accepted(mesh: Mesh, replacement: Replacement, chain: u16, used: usize) -> Insertion
    requires { (mesh.points ≤ 1024) × (mesh.cells ≤ 4096) × (replacement.extent.before ≤ 4096) × (replacement.extent.after ≤ mesh.cells) × (replacement.made ≤ 16384) × (used ≤ 4096) }
    ensures { as_inserted (Ok result) ≡ accepted_with mesh (found_of replacement) chain used }
{
    let report = report(mesh, replacement);
    Insertion {
        mesh: Mesh {
            points: mesh.points + 1,
            cells: mesh.cells - report.after + report.made,
            chain: u32::from(chain),
            used: used as u32,
            ..mesh
        },
        report,
    }
}
