use crate::fault::ToolFault;

/// Appends an item, which is dropped where it finds no memory.
pub(crate) fn push<T: Drop>(items: &mut Vec<T>, item: T) -> Result<(), ToolFault> {
    match items.push(item) {
        Ok(()) => Ok(()),
        Err(_) => Err(ToolFault::Memory),
    }
}
