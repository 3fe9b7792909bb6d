// The paths of an instance.

use std::rc::Rc;
use vf_base::Text;

/// What stands before the names of an instance in the hierarchy, and what stands before those of the instance or the top in which it stands.
#[derive(Drop)]
pub struct Paths {
    pub inner: Rc<Text>,
    pub outer: Rc<Text>,
}
