//! The call for C that verifies a buffer.

use crate::at::At;
use crate::printer::Printer;
use planus_schema::Body;

/// What its clause names.
pub(crate) const VERIFY_USES: &str = "ghost use Rattle.planus_foreign.specs.Verifies.{Verifies};\n";

const CALL: &str = "\
#[unsafe(no_mangle)]
pub extern \"C\" fn §_verify(^buffer: &[u8],^depth: u8,^most_tables: usize,^out: &mut planus_foreign::FaultPlace^) -> u32
    ensures {~Verifies~verified_schema~$a~depth~most_tables~buffer.now~out.old~out.new~result }
{
    planus_foreign::verify::<";

const ARGUMENTS: &str = ">(^buffer,^depth,^most_tables,^out^)\n}\n";

const FAULT: &str = "
/* The field with a fault: the index of its table, which §_table_name names, where the table
   begins, in bytes from the buffer's start, the field's slot, and the index of the item, of an item
   of a vector, else SIZE_MAX. Of a root that can't be read all four are SIZE_MAX. */
typedef struct {
  size_t table;
  size_t start;
  size_t slot;
  size_t item;
} §_fault;

/* 0 if each field of each table that the root leads to is read without an error, an unknown number
   of an enum and an unknown tag of a union aside; else why the first one isn't, and where it is is
   stored; 11 if more than `depth` tables stand one in the other, 12 if more than `most_tables` are
   reached, each as often as it is. flatc's own verifiers have 64 and 1000000. */
uint32_t §_verify(const uint8_t *buffer, size_t len, uint8_t depth, size_t most_tables, §_fault *out);

/* The name of a table by its index. */
static inline const char *§_table_name(size_t index) {
  switch (index) {
";

const NO_TABLE: &str = "  default: return \"no table\";\n  }\n}\n";

impl<'a> Printer<'a> {
    /// Adds the call for buffers whose root is this table.
    pub(crate) fn put_verify_call(&mut self, root: usize, prefix: &str) {
        let at = At::declaration(root);
        self.put_prefixed(CALL, prefix, at);
        self.put_path(root);
        self.put(ARGUMENTS, at);
    }

    /// Adds what the header says of it.
    pub(crate) fn put_verify_header(&mut self, prefix: &str) {
        self.put_prefixed(FAULT, prefix, At::declaration(0));
        let context = self.context;
        for (index, one) in context.declared.iter().enumerate() {
            if matches!(one.body, Body::Table(_)) {
                self.put("  case $a: return \"$T\";\n", At::declaration(index));
            }
        }
        self.put_str(NO_TABLE);
    }
}
