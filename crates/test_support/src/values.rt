//! Values of any type, and what happens to them if a step on them, or a later step, fails.

use std::alloc::Global;
use std::test::Fail;

/// Returns the value that a step worked on if the step succeeded, and drops it otherwise.
pub fn if_done<T: Drop, E>(done: Result<(), E>, worked_on: T) -> Result<T, E> {
    match done {
        Ok(()) => Ok(worked_on),
        Err(why) => Err(why),
    }
}

/// Returns the value with the other one if that was made, and drops it otherwise.
pub fn pair_with<A: Drop, B, E>(first: A, made: Result<B, E>) -> Result<(A, B), E> {
    match made {
        Ok(made) => Ok((first, made)),
        Err(why) => Err(why),
    }
}

/// Returns the value, or drops it and returns this error if it has the fault.
pub fn unless<T: Drop>(is_fault: bool, fault: &'static str, value: T) -> Result<T, Fail> {
    if is_fault {
        return Err(Fail::from(fault));
    }
    Ok(value)
}

/// Returns the value if there is one, and this error otherwise.
pub fn had<T: Drop, E: Drop>(value: Result<T, E>, fault: &'static str) -> Result<T, Fail> {
    match value {
        Ok(value) => Ok(value),
        Err(_) => Err(Fail::from(fault)),
    }
}

/// Returns a clone of a value, and drops the value.
pub fn copy<T: Clone + Drop>(original: T) -> Result<T, Fail> {
    Ok(original.clone()?)
}

/// Returns a vector of this item alone.
pub fn one<T: Drop>(alloc: Global, item: T) -> Result<Vec<T>, Fail> {
    let mut items = Vec::new(alloc);
    items.push(item)?;
    Ok(items)
}

/// Appends the item.
pub fn add<T: Drop>(items: &mut Vec<T>, item: T) -> Result<(), Fail> {
    items.push(item)?;
    Ok(())
}

/// Appends a clone of the item.
pub fn add_copy<T: Clone + Drop>(items: &mut Vec<T>, item: &T) -> Result<(), Fail> {
    items.push(item.clone()?)?;
    Ok(())
}

/// Appends the item and returns true, if there is one.
pub fn add_some<T: Drop>(items: &mut Vec<T>, item: Option<T>) -> Result<bool, Fail> {
    match item {
        Some(item) => {
            items.push(item)?;
            Ok(true)
        }
        None => Ok(false),
    }
}
