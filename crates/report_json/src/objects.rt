//! Objects, member by member.
ghost use Rattle.std.specs.Prelude.{◌≡◌, OnOk};
ghost use Rattle.sdcv_base.specs.Shown.{shown};
ghost use Rattle.serde_json.specs.Data.{array, boolean, number, unsigned, string, object, no_members};
ghost use Rattle.serde_json.specs.Data.{put as with_member};
ghost use Rattle.serde_json.specs.View.{view, items_view};
ghost use Rattle.report_json.specs.Objects.{made, with_number, with_flag};

use sdcv_base::Name;
use serde_json::{Map, Value, put};
use std::alloc::{AllocError, Global};

/// An object that is being made. Its keys ascend, in whatever order they are put.
#[derive(Drop)]
pub(crate) struct Object {
    map: Map<String, Value>,
}

impl Object {
    pub fn new(alloc: Global) -> Object
        ensures { made result ≡ no_members }
    {
        Object {
            map: Map::new(alloc),
        }
    }

    pub fn put_value(&mut self, alloc: Global, key: &str, value: Value) -> Result<(), AllocError>
        ensures { OnOk result (made self.new ≡ with_member key.now (view value) (made self.old)) }
    {
        put(&mut self.map, alloc, key, value)
    }

    pub fn put_count(&mut self, alloc: Global, key: &str, count: u64) -> Result<(), AllocError>
        ensures { OnOk result (made self.new ≡ with_member key.now (number (unsigned count)) (made self.old)) }
    {
        self.put_value(alloc, key, Value::from(count))
    }

    pub fn put_text(&mut self, alloc: Global, key: &str, text: &str) -> Result<(), AllocError>
        ensures { OnOk result (made self.new ≡ with_member key.now (string text.now) (made self.old)) }
    {
        self.put_value(alloc, key, Value::try_from_str(alloc, text)?)
    }

    /// Puts a name as it is shown.
    pub fn put_name(&mut self, alloc: Global, key: &str, name: &Name) -> Result<(), AllocError>
        ensures { OnOk result (made self.new ≡ with_member key.now (string (shown name.now)) (made self.old)) }
    {
        let shown = format!(in alloc; "{name}")?;
        self.put_text(alloc, key, &shown)
    }

    /// Puts a number, where there is one.
    pub fn put_number(
        &mut self,
        alloc: Global,
        key: &str,
        number: Option<u64>,
    ) -> Result<(), AllocError>
        ensures { OnOk result (made self.new ≡ with_number key.now number (made self.old)) }
    {
        match number {
            Some(number) => self.put_count(alloc, key, number),
            None => Ok(()),
        }
    }

    pub fn put_truth(&mut self, alloc: Global, key: &str, truth: bool) -> Result<(), AllocError>
        ensures { OnOk result (made self.new ≡ with_member key.now (boolean truth) (made self.old)) }
    {
        self.put_value(alloc, key, Value::from(truth))
    }

    /// Puts `true`, where the word stands.
    pub fn put_flag(&mut self, alloc: Global, key: &str, stands: bool) -> Result<(), AllocError>
        ensures { OnOk result (made self.new ≡ with_flag key.now stands (made self.old)) }
    {
        if stands {
            self.put_truth(alloc, key, true)
        } else {
            Ok(())
        }
    }

    pub fn into_value(self) -> Value
        ensures { view result ≡ object (made self) }
    {
        let Object { map } = self;
        Value::Object(map)
    }
}

/// The array of these values.
pub(crate) fn array_of(list: Vec<Value>) -> Value
    ensures { view result ≡ array (items_view list.items) }
{
    Value::Array(list)
}
