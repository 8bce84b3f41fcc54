use cranelift_module::{DataId, FuncId, FuncOrDataId, JsonCause, ModuleDeclarations};
use serde_json::Value;
use std::alloc::Global;
use std::test::Fail;

/// The text of the declarations that a text is read as.
fn again(alloc: Global, text: &str) -> Result<String, Fail> {
    let value = Value::from_str(alloc, text)?;
    let declarations = ModuleDeclarations::from_value(alloc, &value)?;
    Ok(declarations.to_value()?.to_string(alloc)?)
}

/// Why a text is read as no declarations.
fn cause(alloc: Global, text: &str) -> Result<Option<JsonCause>, Fail> {
    let value = Value::from_str(alloc, text)?;
    Ok(ModuleDeclarations::from_value(alloc, &value).err())
}

#[test]
fn one_data_object_is_read_and_written_in_the_order_of_keys(rt: HostRuntime) -> Result<(), Fail> {
    let alloc = rt.alloc();
    let text = again(
        alloc,
        "{\"_version_marker\":\"0.137.1\",\"functions\":[],\"data_objects\":[{\"name\":\"x\",\"linkage\":\"Local\",\"writable\":false,\"tls\":false}]}",
    )?;
    assert_eq!(rt;
        text.as_str(),
        "{\"_version_marker\":\"0.137.1\",\"data_objects\":[{\"linkage\":\"Local\",\"name\":\"x\",\"tls\":false,\"writable\":false}],\"functions\":[]}"
    );
    Ok(())
}

#[test]
fn words_of_all_kinds_are_read_and_written(rt: HostRuntime) -> Result<(), Fail> {
    let alloc = rt.alloc();
    let texts = [
        "{\"_version_marker\":\"0.137.1\",\"data_objects\":[],\"functions\":[]}",
        "{\"_version_marker\":\"0.137.1\",\"data_objects\":[{\"linkage\":\"Export\",\"name\":null,\"tls\":true,\"writable\":true},{\"linkage\":\"Hidden\",\"name\":null,\"tls\":false,\"writable\":true},{\"linkage\":\"Import\",\"name\":\"\",\"tls\":true,\"writable\":false}],\"functions\":[{\"linkage\":\"Preemptible\",\"name\":null,\"signature\":{\"call_conv\":\"AppleAarch64\",\"params\":[{\"extension\":\"Uext\",\"purpose\":\"VMContext\",\"type\":\"I128\"},{\"extension\":\"Sext\",\"purpose\":\"Normal\",\"type\":\"I8\"},{\"extension\":\"None\",\"purpose\":\"StructReturn\",\"type\":\"I64\"}],\"returns\":[{\"extension\":\"None\",\"purpose\":\"Normal\",\"type\":\"F32\"},{\"extension\":\"None\",\"purpose\":\"Normal\",\"type\":\"F64\"},{\"extension\":\"None\",\"purpose\":\"Normal\",\"type\":\"I16\"},{\"extension\":\"None\",\"purpose\":\"Normal\",\"type\":\"I32\"}]}}]}",
        "{\"_version_marker\":\"0.137.1\",\"data_objects\":[],\"functions\":[{\"linkage\":\"Local\",\"name\":\"a\",\"signature\":{\"call_conv\":\"Fast\",\"params\":[],\"returns\":[]}},{\"linkage\":\"Local\",\"name\":\"b\",\"signature\":{\"call_conv\":\"Tail\",\"params\":[],\"returns\":[]}},{\"linkage\":\"Local\",\"name\":\"c\",\"signature\":{\"call_conv\":\"SystemV\",\"params\":[],\"returns\":[]}},{\"linkage\":\"Local\",\"name\":\"d\",\"signature\":{\"call_conv\":\"WindowsFastcall\",\"params\":[],\"returns\":[]}}]}",
    ];
    for text in texts {
        assert_eq!(rt; again(alloc, text)?.as_str(), text);
    }
    Ok(())
}

#[test]
fn the_first_cause_of_the_outer_object_is_told(rt: HostRuntime) -> Result<(), Fail> {
    let alloc = rt.alloc();
    let cases = [
        ("[]", Some(JsonCause::WrongShape)),
        ("null", Some(JsonCause::WrongShape)),
        ("{}", Some(JsonCause::MissingKey)),
        (
            "{\"functions\":1,\"data_objects\":1}",
            Some(JsonCause::MissingKey),
        ),
        ("{\"_version_marker\":1}", Some(JsonCause::WrongShape)),
        (
            "{\"_version_marker\":\"0.137.0\"}",
            Some(JsonCause::OtherVersion),
        ),
        (
            "{\"_version_marker\":\"0.137.1\"}",
            Some(JsonCause::MissingKey),
        ),
        (
            "{\"_version_marker\":\"0.137.1\",\"data_objects\":1}",
            Some(JsonCause::MissingKey),
        ),
        (
            "{\"_version_marker\":\"0.137.1\",\"functions\":{}}",
            Some(JsonCause::WrongShape),
        ),
        (
            "{\"_version_marker\":\"0.137.1\",\"functions\":[1]}",
            Some(JsonCause::WrongShape),
        ),
        (
            "{\"_version_marker\":\"0.137.1\",\"functions\":[]}",
            Some(JsonCause::MissingKey),
        ),
        (
            "{\"_version_marker\":\"0.137.1\",\"functions\":[],\"data_objects\":{}}",
            Some(JsonCause::WrongShape),
        ),
        (
            "{\"_version_marker\":\"0.137.1\",\"functions\":[],\"data_objects\":[],\"more\":[]}",
            None,
        ),
    ];
    for (text, expected) in cases {
        assert_eq!(rt; cause(alloc, text)?, expected, "{text}");
    }
    Ok(())
}

/// Why these data objects are read as no declarations.
fn data_cause(alloc: Global, objects: &str) -> Result<Option<JsonCause>, Fail> {
    let text = format!(in alloc;
        "{{\"_version_marker\":\"0.137.1\",\"functions\":[],\"data_objects\":[{objects}]}}"
    )?;
    cause(alloc, text.as_str())
}

#[test]
fn a_data_object_has_exactly_its_keys(rt: HostRuntime) -> Result<(), Fail> {
    let alloc = rt.alloc();
    let cases = [
        (
            "{\"name\":\"x\",\"linkage\":\"Local\",\"writable\":false,\"tls\":false}",
            None,
        ),
        (
            "{\"name\":\"x\",\"linkage\":\"Local\",\"writable\":false,\"tls\":false,\"more\":1}",
            Some(JsonCause::WrongShape),
        ),
        (
            "{\"linkage\":\"Local\",\"writable\":false,\"tls\":false}",
            Some(JsonCause::WrongShape),
        ),
        (
            "{\"name\":\"x\",\"writable\":false,\"tls\":false}",
            Some(JsonCause::WrongShape),
        ),
        (
            "{\"name\":\"x\",\"linkage\":\"Local\",\"tls\":false}",
            Some(JsonCause::WrongShape),
        ),
        (
            "{\"name\":\"x\",\"linkage\":\"Local\",\"writable\":false}",
            Some(JsonCause::WrongShape),
        ),
        (
            "{\"name\":1,\"linkage\":\"Local\",\"writable\":false,\"tls\":false}",
            Some(JsonCause::WrongShape),
        ),
        (
            "{\"name\":\"x\",\"linkage\":\"local\",\"writable\":false,\"tls\":false}",
            Some(JsonCause::WrongShape),
        ),
        (
            "{\"name\":\"x\",\"linkage\":null,\"writable\":false,\"tls\":false}",
            Some(JsonCause::WrongShape),
        ),
        (
            "{\"name\":\"x\",\"linkage\":\"Local\",\"writable\":0,\"tls\":false}",
            Some(JsonCause::WrongShape),
        ),
        (
            "{\"name\":\"x\",\"linkage\":\"Local\",\"writable\":false,\"tls\":\"\"}",
            Some(JsonCause::WrongShape),
        ),
        ("[\"x\",\"Local\",false,false]", Some(JsonCause::WrongShape)),
    ];
    for (object, expected) in cases {
        assert_eq!(rt; data_cause(alloc, object)?, expected, "{object}");
    }
    Ok(())
}

/// Why functions with this signature are read as no declarations.
fn signature_cause(alloc: Global, signature: &str) -> Result<Option<JsonCause>, Fail> {
    let text = format!(in alloc;
        "{{\"_version_marker\":\"0.137.1\",\"functions\":[{{\"name\":null,\"linkage\":\"Local\",\"signature\":{signature}}}],\"data_objects\":[]}}"
    )?;
    cause(alloc, text.as_str())
}

#[test]
fn a_signature_and_a_parameter_have_exactly_their_keys(rt: HostRuntime) -> Result<(), Fail> {
    let alloc = rt.alloc();
    let cases = [
        (
            "{\"call_conv\":\"Fast\",\"params\":[{\"type\":\"I8\",\"extension\":\"None\",\"purpose\":\"Normal\"}],\"returns\":[]}",
            None,
        ),
        (
            "{\"call_conv\":\"Fast\",\"params\":[\"I8\"],\"returns\":[]}",
            Some(JsonCause::WrongShape),
        ),
        (
            "{\"call_conv\":\"Fast\",\"params\":[{\"type\":\"I8\"}],\"returns\":[]}",
            Some(JsonCause::WrongShape),
        ),
        (
            "{\"call_conv\":\"Fast\",\"params\":[{\"type\":\"i8\",\"extension\":\"None\",\"purpose\":\"Normal\"}],\"returns\":[]}",
            Some(JsonCause::WrongShape),
        ),
        (
            "{\"call_conv\":\"Fast\",\"params\":[{\"type\":\"I8\",\"extension\":\"uext\",\"purpose\":\"Normal\"}],\"returns\":[]}",
            Some(JsonCause::WrongShape),
        ),
        (
            "{\"call_conv\":\"Fast\",\"params\":[{\"type\":\"I8\",\"extension\":\"None\",\"purpose\":\"sret\"}],\"returns\":[]}",
            Some(JsonCause::WrongShape),
        ),
        (
            "{\"call_conv\":\"fast\",\"params\":[],\"returns\":[]}",
            Some(JsonCause::WrongShape),
        ),
        (
            "{\"call_conv\":\"Fast\",\"params\":[]}",
            Some(JsonCause::WrongShape),
        ),
        (
            "{\"params\":[],\"returns\":[]}",
            Some(JsonCause::WrongShape),
        ),
        (
            "{\"call_conv\":\"Fast\",\"params\":[],\"returns\":[],\"more\":1}",
            Some(JsonCause::WrongShape),
        ),
        ("null", Some(JsonCause::WrongShape)),
    ];
    for (signature, expected) in cases {
        assert_eq!(rt; signature_cause(alloc, signature)?, expected, "{signature}");
    }
    Ok(())
}

#[test]
fn a_name_stands_once_among_functions_and_data_objects(rt: HostRuntime) -> Result<(), Fail> {
    let alloc = rt.alloc();
    let x = "{\"name\":\"x\",\"linkage\":\"Local\",\"writable\":false,\"tls\":false}";
    let y = "{\"name\":\"y\",\"linkage\":\"Local\",\"writable\":false,\"tls\":false}";
    let none = "{\"name\":null,\"linkage\":\"Local\",\"writable\":false,\"tls\":false}";
    let f =
        "{\"name\":\"x\",\"linkage\":\"Local\",\"signature\":{\"call_conv\":\"Fast\",\"params\":[],\"returns\":[]}}";
    let cases = [
        ("", x, y, None),
        ("", none, none, None),
        ("", x, x, Some(JsonCause::DuplicateName)),
        (f, y, none, None),
        (f, y, x, Some(JsonCause::DuplicateName)),
        (f, x, "1", Some(JsonCause::WrongShape)),
    ];
    for (functions, first, second, expected) in cases {
        let text = format!(in alloc;
            "{{\"_version_marker\":\"0.137.1\",\"functions\":[{functions}],\"data_objects\":[{first},{second}]}}"
        )?;
        assert_eq!(rt; cause(alloc, text.as_str())?, expected, "{text}");
    }
    let text = format!(in alloc;
        "{{\"_version_marker\":\"0.137.1\",\"functions\":[{f},{f}],\"data_objects\":[]}}"
    )?;
    assert_eq!(rt;
        cause(alloc, text.as_str())?,
        Some(JsonCause::DuplicateName)
    );
    Ok(())
}

#[test]
fn of_a_repeated_key_the_last_counts(rt: HostRuntime) -> Result<(), Fail> {
    let alloc = rt.alloc();
    let cases = [
        (
            "{\"_version_marker\":0,\"_version_marker\":\"0.137.1\",\"functions\":1,\"functions\":[],\"data_objects\":[]}",
            None,
        ),
        (
            "{\"_version_marker\":\"0.137.1\",\"_version_marker\":\"0\",\"functions\":[],\"data_objects\":[]}",
            Some(JsonCause::OtherVersion),
        ),
    ];
    for (text, expected) in cases {
        assert_eq!(rt; cause(alloc, text)?, expected, "{text}");
    }
    Ok(())
}

#[test]
fn a_cause_prints_what_is_wrong(rt: HostRuntime) -> Result<(), Fail> {
    let alloc = rt.alloc();
    let cases = [
        (JsonCause::MissingKey, "missing key"),
        (JsonCause::WrongShape, "wrong shape"),
        (JsonCause::OtherVersion, "other version"),
        (JsonCause::DuplicateName, "duplicate name"),
        (JsonCause::Allocation, "out of memory"),
    ];
    for (cause, expected) in cases {
        assert_eq!(rt; cause.to_string(alloc)?.as_str(), expected);
    }
    Ok(())
}

#[test]
fn ten_thousand_declarations_come_back_with_their_names(rt: HostRuntime) -> Result<(), Fail> {
    let alloc = rt.alloc();
    let mut text = String::from_str(
        alloc,
        "{\"_version_marker\":\"0.137.1\",\"data_objects\":[{\"linkage\":\"Local\",\"name\":null,\"tls\":true,\"writable\":false}",
    )?;
    for k in 0..5_000 {
        let object = format!(in alloc;
            ",{{\"linkage\":\"Export\",\"name\":\"d{k}\",\"tls\":false,\"writable\":true}}"
        )?;
        text.push_str(object.as_str())?;
    }
    text.push_str(
        "],\"functions\":[{\"linkage\":\"Hidden\",\"name\":null,\"signature\":{\"call_conv\":\"Tail\",\"params\":[],\"returns\":[]}}",
    )?;
    for k in 0..5_000 {
        let function = format!(in alloc;
            ",{{\"linkage\":\"Import\",\"name\":\"f{k}\",\"signature\":{{\"call_conv\":\"SystemV\",\"params\":[],\"returns\":[]}}}}"
        )?;
        text.push_str(function.as_str())?;
    }
    text.push_str("]}")?;
    let value = Value::from_str(alloc, text.as_str())?;
    let read = ModuleDeclarations::from_value(alloc, &value)?;
    assert_eq!(rt; read.get_functions().count(), 5_001);
    assert_eq!(rt; read.get_data_objects().count(), 5_001);
    assert_eq!(rt;
        read.get_name("f4999"),
        Some(FuncOrDataId::Func(FuncId::from_u32(5_000)))
    );
    assert_eq!(rt;
        read.get_name("d0"),
        Some(FuncOrDataId::Data(DataId::from_u32(1)))
    );
    assert_eq!(rt; read.get_name("f5000"), None);
    let written = read.to_value()?.to_string(alloc)?;
    assert!(rt; written.as_str() == text.as_str());
    Ok(())
}
