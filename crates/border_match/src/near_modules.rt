//! The modules that have cells of a module's halo.
ghost use Rattle.std.specs.Prelude.{◌+◌, ◌≤◌, ◌≡◌, ◌<◌, IsTrue, IfOk, OnOk};
ghost use Rattle.bbm_rule.specs.Boxes.{in_box};
ghost use Rattle.border_match.specs.Boards.{AreModuleNumbers, AreHaloOwnersListed, AreReadyBorders, AreOwnersListedInRows, AreOutsideOwnersListed, KeepsAllModuleNumbers, with_number_once};
ghost use Rattle.lemmas.specs.Bounds.{max_side};

use crate::borders::Borders;
use bbm_rule::Cell;
use module_box::Box2;
use std::alloc::{AllocError, Global};

// Adds a number, unless it is there already.
fn add_number_once(near: &mut Vec<usize>, number: usize) -> Result<(), AllocError>
    ensures { OnOk result (near.new.items ≡ with_number_once near.old.items number) }
{
    if near.contains(&number) {
        return Ok(());
    }
    near.push(number)?;
    Ok(())
}

impl<'a> Borders<'a> {
    // Adds the number of the module that has the cell, unless it is this one. Returns the box of that module, whose
    // cells all have this owner.
    fn add_other_owner(&self, near: &mut Vec<usize>, cell: Cell) -> Result<Box2, AllocError>
        requires borders_ready { AreReadyBorders self.now }
        requires cell_inside { IsTrue (in_box self.now.whole cell.x cell.y) }
        requires numbers_exist { AreModuleNumbers self.now near.old.items }
        ensures owners_listed { IfOk result (AreOutsideOwnersListed self.now near.new.items) }
        ensures holds { IfOk result (λ area. IsTrue (in_box area cell.x cell.y)) }
        ensures fits_max_side { IfOk result (λ area. (area.x + area.w ≤ max_side)
            × (area.y + area.h ≤ max_side)) }
        ensures numbers_kept { OnOk result (KeepsAllModuleNumbers near.old.items near.new.items) }
        ensures numbers_exist { OnOk result (AreModuleNumbers self.now near.new.items) }
    {
        let area = self.job.area();
        if area.holds(cell) {
            return Ok(area);
        }
        let number = self.owners.owner(cell);
        add_number_once(near, number)?;
        Ok(self.jobs[number].area())
    }

    // Adds the numbers of the modules that have cells of row `y` in the columns of the halo. Returns the first row
    // below it in which another module may have a cell in these columns.
    fn add_other_owners_in_row(&self, near: &mut Vec<usize>, y: u32) -> Result<u32, AllocError>
        requires borders_ready { AreReadyBorders self.now }
        requires numbers_exist { AreModuleNumbers self.now near.old.items }
        requires row_inside { y < self.now.whole.h }
        requires row { y < self.now.job.now.area.y + self.now.job.now.area.h + 1 }
        ensures owners_listed { IfOk result (AreOwnersListedInRows self.now near.new.items y) }
        ensures next_row_later { IfOk result (λ next. y < next) }
        ensures numbers_kept { OnOk result (KeepsAllModuleNumbers near.old.items near.new.items) }
        ensures numbers_exist { OnOk result (AreModuleNumbers self.now near.new.items) }
    {
        let area = self.job.area();
        let end = self.whole.w.min(area.x + area.w + 1);
        let mut x = area.x.saturating_sub(1);
        let mut next = area.y + area.h + 1;
        while x < end {
            let cell = Cell {
                x: x as i32,
                y: y as i32,
            };
            let owner = self.add_other_owner(near, cell)?;
            x = owner.x + owner.w;
            next = next.min(owner.y + owner.h);
        }
        Ok(next)
    }

    /// Returns the numbers of the modules that have cells of the module's halo. It leaps from box to box and not from
    /// cell to cell, so a module among others of its size takes a dozen looks.
    pub(crate) fn near_modules(&self, alloc: Global) -> Result<Vec<usize>, AllocError>
        requires { AreReadyBorders self.now }
        ensures owners_listed { IfOk result (λ near. AreHaloOwnersListed self.now near.items) }
        ensures numbers_exist { IfOk result (λ near. AreModuleNumbers self.now near.items) }
    {
        let area = self.job.area();
        let end = self.whole.h.min(area.y + area.h + 1);
        let mut near = Vec::new(alloc);
        let mut y = area.y.saturating_sub(1);
        while y < end {
            y = self.add_other_owners_in_row(&mut near, y)?;
        }
        Ok(near)
    }
}
