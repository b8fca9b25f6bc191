//! Changes that stand in lines, all made or none.

ghost use Rattle.std.specs.Prelude.{◌≡◌, [], Bool, Decides, OnOk, IfOk, IfErr};
ghost use Rattle.edit_ops.specs.declared.fault.EditFault.TheVariants as edit;
ghost use Rattle.edit_ops.specs.Answer.{IsChange};
ghost use Rattle.set_text.specs.declared.fault.LineFault.TheVariants as line_fault;
ghost use Rattle.load_ops.specs.Lines.{AreMade, IsLineLoad, IsLineLoadFault};
ghost use Rattle.load_ops.specs.Parts.{IsOneFault, IsMakingFault};

use crate::fault::LoadFault;
use cfg_base::Path;
use cfg_tree::Tree;
use edit_ops::{EditFault, apply};
use set_text::{LineFault, OpLine, parse_lines};
use std::alloc::Global;

fn is_memory(fault: &EditFault) -> bool
    ensures { Decides result (fault.now ≡ edit.NoMemory) }
{
    matches!(fault, EditFault::NoMemory)
}

/// Makes the change of one line.
fn make(alloc: Global, tree: &mut Tree, line: &OpLine) -> Result<(), LoadFault>
    ensures ok { OnOk result ((told : Bool) × IsChange tree.old tree.new [] line.now.op told) }
    ensures err { IfErr result (IsOneFault tree.old line.now) }
{
    match apply(alloc, tree, &Path::top(alloc), &line.op) {
        Ok(_) => Ok(()),
        Err(fault) => {
            if is_memory(&fault) {
                return Err(LoadFault::NoMemory);
            }
            Err(LoadFault::Edit {
                line: line.line,
                fault,
            })
        }
    }
}

/// The statements after these changes, each made of what those before it leave.
fn made(alloc: Global, tree: &Tree, lines: &[OpLine]) -> Result<Tree, LoadFault>
    ensures ok { IfOk result (AreMade tree.now lines.now) }
    ensures err { IfErr result (IsMakingFault tree.now lines.now) }
{
    let mut next = tree.copy()?;
    for line in lines {
        if let Err(fault) = make(alloc, &mut next, line) {
            return Err(fault);
        }
    }
    Ok(next)
}

/// The statements that a text's lines make. All lines are read before the first change is made.
pub fn lines_loaded(alloc: Global, tree: &Tree, text: &[u8]) -> Result<Tree, LoadFault>
    ensures ok { IfOk result (IsLineLoad tree.now text.now) }
    ensures err { IfErr result (IsLineLoadFault tree.now text.now) }
{
    match parse_lines(alloc, text) {
        Ok(lines) => made(alloc, tree, lines.as_slice()),
        Err(LineFault::NoMemory) => Err(LoadFault::NoMemory),
        Err(fault) => Err(LoadFault::Line(fault)),
    }
}
