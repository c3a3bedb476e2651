// An operation of a sheet with its numbers and those of its type. Any operation number may be asked about: past the
// arrays every number is 0.
#![tactic(auto)]

ghost use Rattle.std.specs.Prelude.{◌≡◌, get_or};
ghost use Rattle.sheet.specs.Sheet.{no_type, no_operation, type_at, op_at, type_of};

use sheet::{NO_OPERATION, NO_TYPE, Operation, ResourceType, Sheet};
use sizes::{MOST_OPERATIONS, MOST_TYPES};

// An operation of an array with its numbers; past the array they are 0.
fn operation_in(ops: &[Operation; MOST_OPERATIONS], op: usize) -> Operation
    ensures { result ≡ get_or ops.now op no_operation }
{
    ops.get(op).copied().unwrap_or(NO_OPERATION)
}

// A type of an array with its numbers; past the array they are 0.
fn type_in(types: &[ResourceType; MOST_TYPES], resource: usize) -> ResourceType
    ensures { result ≡ get_or types.now resource no_type }
{
    types.get(resource).copied().unwrap_or(NO_TYPE)
}

// An operation with its numbers; past the array they are 0. The sheet is lent, since by value it is copied.
pub fn operation_at(sheet: &Sheet, op: usize) -> Operation
    ensures { result ≡ op_at sheet.now op }
{
    operation_in(&sheet.ops, op)
}

// A type with its numbers; past the array they are 0.
pub fn type_at(sheet: &Sheet, resource: usize) -> ResourceType
    ensures { result ≡ type_at sheet.now resource }
{
    type_in(&sheet.types, resource)
}

// The type of an operation; past the array it is 0. The array is taken out of the sheet first, here and in `type_of`:
// to read at an index of a sheet by value copies it all.
pub fn resource_of(sheet: Sheet, op: usize) -> usize
    ensures { result ≡ (op_at sheet op).resource }
{
    let ops = sheet.ops;
    operation_in(&ops, op).resource
}

// The type of an operation with its numbers; past the array of types they are 0.
pub fn type_of(sheet: Sheet, op: usize) -> ResourceType
    ensures { result ≡ type_of sheet op }
{
    let ops = sheet.ops;
    let types = sheet.types;
    type_in(&types, operation_in(&ops, op).resource)
}

// The instances of an operation's type; 0 is unlimited.
pub fn instances_of(sheet: Sheet, op: usize) -> usize
    ensures { result ≡ (type_of sheet op).instances }
{
    type_of(sheet, op).instances
}
