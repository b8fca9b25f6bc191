//! Calls of the profile's rows, which are named by their numbers.

use crate::base_calls::steps_of;
use crate::kinds::{name_of_shape, put_kind};
use cfg_schema::{Child, Place, RowId, child, fixed_name, head, row, rows_below};
use script_lines::{Arg, Fault, Text, flag, number, say, say_bytes, say_counted, say_number};
use std::alloc::Global;

fn id_of(arg: &Arg) -> Option<RowId> {
    let number = number(arg).ok()?;
    RowId::of(u8::try_from(number).ok()?)
}

const NO_ROW: Fault = Fault::Script("a row is a number from 0 to 92");

fn say_row_of(out: &mut Text, id: RowId) {
    let told = row(id);
    if told.id != id {
        say(out, "another row");
        return;
    }
    out.put("= ");
    out.put(name_of_shape(told.shape));
    put_kind(out, told.name_kind);
    put_kind(out, told.value_kind);
    out.put(if told.ordered {
        " ordered\n"
    } else {
        " sorted\n"
    });
}

/// row ROW
fn ask_row(args: &[Arg], out: &mut Text) -> Result<(), Fault> {
    let [id] = args else {
        return Err(Fault::Script("row ROW"));
    };
    let Some(id) = id_of(id) else {
        return Err(NO_ROW);
    };
    say_row_of(out, id);
    Ok(())
}

/// head ROW and fixed_name ROW
fn ask_word(call: &str, args: &[Arg], out: &mut Text) -> Result<(), Fault> {
    let [id] = args else {
        return Err(Fault::Script("head ROW or fixed_name ROW"));
    };
    let Some(id) = id_of(id) else {
        return Err(NO_ROW);
    };
    let word = if call == "head" {
        head(id)
    } else {
        fixed_name(id)
    };
    say_bytes(out, "word", word);
    Ok(())
}

fn say_row(out: &mut Text, text: &str, id: RowId) {
    say_counted(out, text, u64::from(id.number()));
}

/// child ROW yes|no WORD NEXT
fn ask_child(args: &[Arg], out: &mut Text) -> Result<(), Fault> {
    let [parent, in_group, word, next] = args else {
        return Err(Fault::Script("child ROW yes|no WORD NEXT"));
    };
    let Some(parent) = id_of(parent) else {
        return Err(NO_ROW);
    };
    match child(parent, flag(in_group)?, word, next) {
        Child::Row(id) => say_row(out, "row", id),
        Child::BadName(id) => say_row(out, "bad name", id),
        Child::Unknown => say(out, "unknown"),
    }
    Ok(())
}

/// rows_below ROW yes|no
fn ask_rows(alloc: Global, args: &[Arg], out: &mut Text) -> Result<(), Fault> {
    let [parent, in_group] = args else {
        return Err(Fault::Script("rows_below ROW yes|no"));
    };
    let Some(parent) = id_of(parent) else {
        return Err(NO_ROW);
    };
    let below = rows_below(alloc, parent, flag(in_group)?)?;
    out.put("= rows");
    for id in below.iter() {
        out.put(" ");
        out.put_number(u64::from(id.number()));
    }
    out.put("\n");
    Ok(())
}

fn say_place(out: &mut Text, place: Option<Place>) {
    let Some(place) = place else {
        say(out, "none");
        return;
    };
    say_number(out, u64::from(place.row.number()));
    if place.in_group {
        say(out, "in a group");
    }
}

/// place HEAD NAME ..
fn ask_place(alloc: Global, args: &[Arg], out: &mut Text) -> Result<(), Fault> {
    say_place(out, Place::of(&steps_of(alloc, args)?));
    Ok(())
}

/// after ROW yes|no HEAD NAME
fn ask_after(alloc: Global, args: &[Arg], out: &mut Text) -> Result<(), Fault> {
    let [id, in_group, step @ ..] = args else {
        return Err(Fault::Script("after ROW yes|no HEAD NAME"));
    };
    let Some(row) = id_of(id) else {
        return Err(NO_ROW);
    };
    let place = Place {
        row,
        in_group: flag(in_group)?,
    };
    match steps_of(alloc, step)?.as_slice() {
        [step] => say_place(out, place.after(step)),
        _ => return Err(Fault::Script("after ROW yes|no HEAD NAME")),
    }
    Ok(())
}

/// Answers one of these calls, where it is one.
pub(crate) fn ask(
    alloc: Global,
    call: &str,
    args: &[Arg],
    out: &mut Text,
) -> Option<Result<(), Fault>> {
    Some(match call {
        "row" => ask_row(args, out),
        "head" | "fixed_name" => ask_word(call, args, out),
        "child" => ask_child(args, out),
        "rows_below" => ask_rows(alloc, args, out),
        "place" => ask_place(alloc, args, out),
        "after" => ask_after(alloc, args, out),
        _ => return None,
    })
}
