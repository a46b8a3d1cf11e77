ghost use Rattle.planus_dump.specs.declared.schemas.Schema.{Schema};
ghost use Rattle.planus_demo.specs.WorkedSchemas.{WorkedRowsFit};

/// The schema of weapons fits the axe alone of the worked steps, and that of monsters the monster.
pub fn worked_rows_fit()
    ensures { (schema : Schema) → WorkedRowsFit schema }
{}
