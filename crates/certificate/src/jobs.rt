//! The jobs of a certificate.
ghost use Rattle.std.specs.Prelude.{◌≡◌, ◌≤◌, ◌<◌, ◌&&◌, false, IfOk, IsTrue, map};
ghost use Rattle.std.specs.Arc.{arc_value};
ghost use Rattle.std.specs.List.{All};
ghost use Rattle.circuit.specs.Bridge.{circuit_of};
ghost use Rattle.circuit.specs.Meaning.{wires};
ghost use Rattle.module_box.specs.Locals.{circuit_wire, is_among};
ghost use Rattle.module_box.specs.Moves.{IsCellInShiftRange};
ghost use Rattle.certificate.specs.Grammars.{modules_in, version_number};
ghost use Rattle.certificate_lines.specs.Entries.{areas};
ghost use Rattle.certificate_lines.specs.Settings.{setting_of};
ghost use Rattle.certificate.specs.GoodModules.{AreGoodModules, IsGoodModule, IsLayoutOwnerTable, all_module_lines};
ghost use Rattle.certificate.specs.Jobs.{AreJobsOf, HasShapeGroups, IsJobOf};
ghost use Rattle.certificate_lines.specs.BuilderView.{IsWithinMaxSize};
ghost use Rattle.certificate_lines.specs.StoredModules.{cell_at, module_lines_with};
ghost use Rattle.module_job.specs.Shapes.{signals_in_plane, stops_in_plane};
ghost use Rattle.module_job.specs.Signals.{IsSignalWireBelow, renumber_signals, renumber_stop};
ghost use Rattle.certificate.specs.StopLists.{stored_stop};
ghost use Rattle.certificate.specs.Timetables.{AreBorderLinesRising, HasLocalWire, stored_signals};
ghost use Rattle.certificate_lines.specs.Versions.{has_nonlocal_edge_wire_beside, is_haloless_version, modules_by_version, with_halo_lines};
ghost use Rattle.lemmas.specs.Bounds.{max_side};

use crate::cert::Cert;
use crate::implied_halos::implied_halos;
use crate::keep_lines::kept_places;
use crate::layout_tables::LayoutTables;
use crate::neighbour_edges::{neighbour_edge_places, take_list};
use crate::signal_lists::signals_of;
use crate::stops::stops_of;
use crate::version::Version;
use certificate_lines::{StoredBorder, StoredModule, StoredStop};
use module_box::{Box2, Locals, Owners, Schedule};
use module_job::{Job, Shape, Stop, job_groups, moved_stops, shift_to_origin};
use std::alloc::{AllocError, Global};
use std::sync::Arc;

// The signals of edge lines or of halo lines of a module, where the corner of its box is at (0, 0).
fn schedule_from_corner(
    alloc: Global,
    locals: &Locals,
    area: Box2,
    lines: &[StoredBorder],
) -> Result<Schedule, AllocError>
    requires order { AreBorderLinesRising lines.now }
    requires local { All (HasLocalWire locals.now) lines.now }
    requires low { All (λ e. IsWithinMaxSize (cell_at e.column e.row)) lines.now }
    requires corner { (area.x ≤ max_side) × (area.y ≤ max_side) }
    ensures same_signals { IfOk result (λ s. renumber_signals (circuit_wire locals.now)
        (signals_in_plane area s) ≡ stored_signals lines.now) }
    ensures all_times { IfOk result (λ s. All
        (λ h. IsSignalWireBelow (wires locals.now.netlist) h.signal)
        (signals_in_plane area s).all_times) }
    ensures events { IfOk result (λ s. All
        (λ e. IsSignalWireBelow (wires locals.now.netlist) e.signal)
        (signals_in_plane area s).events) }
    ensures in_shift_range { IfOk result (λ s. All (λ e. IsCellInShiftRange e.at.cell) s.events) }
{
    let signals = signals_of(alloc, locals, lines)?;
    Ok(signals.moved(shift_to_origin(area.x), shift_to_origin(area.y)))
}

// The stops of a module, where the corner of its box is at (0, 0).
fn stops_from_corner(
    alloc: Global,
    locals: &Locals,
    area: Box2,
    stops: &[StoredStop],
) -> Result<Vec<Stop>, AllocError>
    requires local { All (λ s. IsTrue (is_among locals.now.circuit_wires s.wire)) stops.now }
    requires low { All (λ s. IsWithinMaxSize (cell_at s.column s.row)) stops.now }
    requires corner { (area.x ≤ max_side) × (area.y ≤ max_side) }
    ensures same_stops { IfOk result (λ moved. map (renumber_stop (circuit_wire locals.now))
        (stops_in_plane area moved.items) ≡ map stored_stop stops.now) }
    ensures own_wires { IfOk result (λ moved. All (λ s. s.wire < wires locals.now.netlist)
        (stops_in_plane area moved.items)) }
    ensures in_shift_range { IfOk result (λ moved. All (λ s. IsCellInShiftRange s.at.cell)
        moved.items) }
{
    let placed = stops_of(alloc, locals, stops)?;
    moved_stops(
        alloc,
        &placed,
        shift_to_origin(area.x),
        shift_to_origin(area.y),
    )
}

// The job of a module that has these halo lines in place of its own.
fn make_job(
    alloc: Global,
    tables: &LayoutTables,
    stored: &StoredModule,
    halos: &[StoredBorder],
) -> Result<Arc<Job>, AllocError>
    requires { IsGoodModule tables.now.circuit tables.now.layout stored.now halos.now }
    ensures { IfOk result (λ j. IsJobOf (circuit_of tables.now.circuit) tables.now.layout
        (module_lines_with (circuit_of tables.now.circuit) stored.now halos.now)
        (arc_value j)) }
{
    let area = stored.area;
    let size = tables.layout().size();
    let kept = kept_places(alloc, &stored.gates, &stored.keeps)?;
    let locals = Locals::new(alloc, tables.circuit(), &stored.cuts, &stored.gates)?;
    let (starts, demands) = tables.start_and_demand_lists(alloc, area, &locals)?;
    let edges = schedule_from_corner(alloc, &locals, area, &stored.edges)?;
    let halos = schedule_from_corner(alloc, &locals, area, halos)?;
    let stops = stops_from_corner(alloc, &locals, area, &stored.stops)?;
    let (wiring, wires, gates) = locals.into_parts();
    let shape = Shape {
        width: area.w,
        height: area.h,
        steps: size.steps,
        wiring,
        starts,
        demands,
        edges,
        halos,
        stops,
        kept,
    };
    let job = Job {
        x: area.x,
        y: area.y,
        wires,
        gates,
        shape: Arc::new(alloc, shape)?,
    };
    Ok(Arc::new(alloc, job)?)
}

// The jobs of modules as they are written.
fn jobs_as_written(
    alloc: Global,
    tables: &LayoutTables,
    modules: &[StoredModule],
) -> Result<Vec<Arc<Job>>, AllocError>
    requires { AreGoodModules tables.now.circuit tables.now.layout modules.now }
    ensures { IfOk result (λ js. AreJobsOf (circuit_of tables.now.circuit) tables.now.layout
        (all_module_lines tables.now.circuit modules.now) (map arc_value js.items)) }
{
    let mut jobs = Vec::with_capacity(alloc, modules.len())?;
    for module in modules {
        let job = make_job(alloc, tables, module, &module.halos)?;
        jobs.push(job)?;
    }
    Ok(jobs)
}

// The jobs of modules without halo lines, by the edge lines beside them.
fn jobs_with_implied_halos(
    alloc: Global,
    tables: &LayoutTables,
    owners: &Owners,
    modules: &[StoredModule],
) -> Result<Vec<Arc<Job>>, AllocError>
    requires good { AreGoodModules tables.now.circuit tables.now.layout modules.now }
    requires owners { IsLayoutOwnerTable tables.now.layout
        (areas (all_module_lines tables.now.circuit modules.now)) owners.now }
    requires complete { has_nonlocal_edge_wire_beside
        (setting_of tables.now.circuit tables.now.layout)
        (all_module_lines tables.now.circuit modules.now) ≡ false }
    ensures { IfOk result (λ js. AreJobsOf (circuit_of tables.now.circuit) tables.now.layout
        (map (with_halo_lines (setting_of tables.now.circuit tables.now.layout)
        (all_module_lines tables.now.circuit modules.now))
        (all_module_lines tables.now.circuit modules.now))
        (map arc_value js.items)) }
{
    let mut places = neighbour_edge_places(alloc, tables, owners, modules)?;
    let mut jobs = Vec::with_capacity(alloc, modules.len())?;
    for (number, module) in modules.iter().enumerate() {
        // The lists of all modules take much memory, so each is freed once its module has its halo lines.
        let halos = {
            let list = take_list(alloc, &mut places, number);
            implied_halos(alloc, modules, &list)?
        };
        let job = make_job(alloc, tables, module, &halos)?;
        jobs.push(job)?;
    }
    Ok(jobs)
}

// The jobs of the modules of a certificate of this version.
#[tactic(auto, using(crate::proofs::FullModules::meant_new, crate::proofs::FullModules::meant_old))]
fn jobs_of_version(
    alloc: Global,
    tables: &LayoutTables,
    version: Version,
    owners: &Owners,
    modules: &[StoredModule],
) -> Result<Vec<Arc<Job>>, AllocError>
    requires good { AreGoodModules tables.now.circuit tables.now.layout modules.now }
    requires owners { IsLayoutOwnerTable tables.now.layout
        (areas (all_module_lines tables.now.circuit modules.now)) owners.now }
    requires complete { (is_haloless_version (version_number version)
        && has_nonlocal_edge_wire_beside (setting_of tables.now.circuit tables.now.layout)
        (all_module_lines tables.now.circuit modules.now)) ≡ false }
    ensures { IfOk result (λ js. AreJobsOf (circuit_of tables.now.circuit) tables.now.layout
        (modules_by_version (version_number version)
        (setting_of tables.now.circuit tables.now.layout)
        (all_module_lines tables.now.circuit modules.now))
        (map arc_value js.items)) }
{
    if version.is_haloless() {
        return jobs_with_implied_halos(alloc, tables, owners, modules);
    }
    jobs_as_written(alloc, tables, modules)
}

impl<'a> Cert<'a> {
    /// Returns the jobs of the modules, in their order.
    ///
    /// A job is all that the module's run by itself needs, from its lines and from what the circuit and the layout say
    /// of its cells.
    pub fn jobs(&self, alloc: Global) -> Result<Vec<Arc<Job>>, AllocError>
        ensures { IfOk result (λ js. AreJobsOf (circuit_of self.now.circuit) self.now.layout
            (modules_in self.now) (map arc_value js.items)) }
    {
        let tables = LayoutTables::new(alloc, self.circuit, self.layout, &self.ports)?;
        jobs_of_version(alloc, &tables, self.version, &self.owners, &self.modules)
    }

    /// Returns for each module the number of the first whose job has the same shape.
    ///
    /// It makes the jobs for it. If you have them, [`job_groups`] is cheaper.
    pub fn groups(&self, alloc: Global) -> Result<Vec<usize>, AllocError>
        ensures { IfOk result (λ groups. HasShapeGroups (circuit_of self.now.circuit)
            self.now.layout (modules_in self.now) groups.items) }
    {
        let jobs = self.jobs(alloc)?;
        job_groups(alloc, &jobs)
    }
}
