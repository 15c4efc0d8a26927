// The windows of a field, up to 8.
use crate::field_list::FieldList;
use judges::window::Window;

pub type KeptWindows = FieldList<Window, 8>;
