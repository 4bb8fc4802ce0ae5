ghost use Rattle.std.specs.Prelude.{◌≡◌, IfOk};

use pn_text::Text;
use sqlite_items::Items;
use std::alloc::{AllocError, Global};

/// A value of a sort. `Const` is a place in its enumeration or partition.
#[derive(Debug, Drop)]
#[cycle(value)]
pub enum Value {
    Dot,
    Bool(bool),
    Const(u32),
    Int(i64),
    Text(Text),
    Tuple(Items<Value>),
    List(Items<Value>),
}

impl Value {
    /// The same value, in memory of its own. The recursion goes by the depth of the value.
    #[cycle(copy)]
    pub fn copy(&self, alloc: Global) -> Result<Value, AllocError>
        ensures { IfOk result (λ value. value ≡ self.now) }
    {
        match self {
            Value::Dot => Ok(Value::Dot),
            Value::Bool(truth) => Ok(Value::Bool(*truth)),
            Value::Const(place) => Ok(Value::Const(*place)),
            Value::Int(number) => Ok(Value::Int(*number)),
            Value::Text(text) => Ok(Value::Text(text.copy(alloc)?)),
            Value::Tuple(parts) => Ok(Value::Tuple(copy_all(alloc, parts.as_slice())?)),
            Value::List(items) => Ok(Value::List(copy_all(alloc, items.as_slice())?)),
        }
    }
}

#[cycle(copy)]
fn copy_all(alloc: Global, values: &[Value]) -> Result<Items<Value>, AllocError>
    ensures { IfOk result (λ all. all ≡ values.now) }
{
    let mut all = Items::new(alloc);
    for value in values {
        all.push(value.copy(alloc)?)?;
    }
    Ok(all)
}
