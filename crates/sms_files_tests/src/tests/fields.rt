//! The fields file.

use super::same::same;
use sms_files::{ConfigValue, InputFault, fields_of};
use sms_message::Fields;
use std::process::Abort;

// The fields of a text without a fault.
fn fields_in(rt: &(impl AllocGlobal + Abort), text: &[u8]) -> Fields {
    match fields_of(rt.alloc(), text) {
        Ok(fields) => fields,
        Err(_fault) => panic!(rt; "a fault"),
    }
}

#[test]
fn asks_for_none_by_an_empty_text(rt: HostRuntime) {
    let f = fields_in(&rt, b"");
    same(&rt, f.service_type.as_slice(), b"".as_slice());
    let types = (f.source_ton, f.source_npi, f.dest_ton, f.dest_npi);
    same(&rt, types, (None, None, None, None));
    same(
        &rt,
        (f.protocol_id, f.priority, f.registered, f.replace),
        (0, 0, None, false),
    );
    same(&rt, f.schedule.as_slice(), b"".as_slice());
    same(&rt, f.validity.as_slice(), b"".as_slice());
    same(&rt, f.params.as_slice().len(), 0);
}

/// Each key, with a value.
const WHOLE: &[u8] =
    b"service_type = \"OTP\"\nsource_ton = 3\nsource_npi = 0\ndestination_ton = 1\ndestination_npi = 255\n\
protocol_id = 64\npriority = 3\nregistered_delivery = 31\nreplace = true\nschedule = \"261130120000000+\"\n\
validity = \"000007000000000R\"\nparameters = [\"1400:31323031\", \"0204:00fF\", \"0019:\"]\n";

#[test]
fn reads_each_key(rt: HostRuntime) {
    let f = fields_in(&rt, WHOLE);
    same(&rt, f.service_type.as_slice(), b"OTP".as_slice());
    let types = (f.source_ton, f.source_npi, f.dest_ton, f.dest_npi);
    same(&rt, types, (Some(3), Some(0), Some(1), Some(255)));
    same(
        &rt,
        (f.protocol_id, f.priority, f.registered, f.replace),
        (64, 3, Some(31), true),
    );
    same(&rt, f.schedule.as_slice(), b"261130120000000+".as_slice());
    same(&rt, f.validity.as_slice(), b"000007000000000R".as_slice());
    let params = f.params.as_slice();
    assert!(rt; params.len() == 3);
    same(
        &rt,
        (params[0].tag, params[0].value.as_slice()),
        (0x1400, b"1201".as_slice()),
    );
    same(
        &rt,
        (params[1].tag, params[1].value.as_slice()),
        (0x0204, b"\x00\xFF".as_slice()),
    );
    same(
        &rt,
        (params[2].tag, params[2].value.as_slice()),
        (0x0019, b"".as_slice()),
    );
}

/// Seconds of a validity, and the time that they are sent as.
const SECONDS: [(&[u8], &[u8]); 6] = [
    (b"validity_s = 1", b"000000000001000R"),
    (b"validity_s = 300", b"000000000500000R"),
    (b"validity_s = 3599", b"000000005959000R"),
    (b"validity_s = 86399", b"000000235959000R"),
    (b"validity_s = 86400", b"000001000000000R"),
    (b"validity_s = 2592000", b"000030000000000R"),
];

#[test]
fn sends_seconds_as_a_time(rt: HostRuntime) {
    for (text, wanted) in &SECONDS {
        same(&rt, fields_in(&rt, *text).validity.as_slice(), *wanted);
    }
}

/// Texts with a fault, and the key that it names.
const FAULTY: [(&[u8], &str); 36] = [
    (b"service_type = \"123456\"", "service_type"),
    (b"service_type = 5", "service_type"),
    (b"source_ton = 256", "source_ton"),
    (b"source_ton = -1", "source_ton"),
    (b"source_npi = \"1\"", "source_npi"),
    (b"destination_ton = 1000", "destination_ton"),
    (b"destination_npi = 1.5", "destination_npi"),
    (b"protocol_id = 256", "protocol_id"),
    (b"priority = 4", "priority"),
    (b"registered_delivery = 32", "registered_delivery"),
    (b"replace = 1", "replace"),
    (b"schedule = \"26113012000000+\"", "schedule"),
    (b"schedule = \"2611301200000000+\"", "schedule"),
    (b"schedule = \"261130120000000Z\"", "schedule"),
    (b"schedule = \"260030120000000+\"", "schedule"),
    (b"schedule = \"261330120000000-\"", "schedule"),
    (b"schedule = \"261100120000000-\"", "schedule"),
    (b"schedule = \"261132120000000-\"", "schedule"),
    (b"schedule = \"261130240000000-\"", "schedule"),
    (b"schedule = \"261130126000000-\"", "schedule"),
    (b"schedule = \"261130120060000-\"", "schedule"),
    (b"schedule = \"261130120000049-\"", "schedule"),
    (b"schedule = \"2611301200000:0-\"", "schedule"),
    (b"validity = \"001300000000000R\"", "validity"),
    (b"validity = \"000032000000000R\"", "validity"),
    (b"validity_s = 0", "validity_s"),
    (b"validity_s = 2592001", "validity_s"),
    (b"validity = \"\"\nvalidity_s = 300", "validity_s"),
    (b"parameters = \"1400:31\"", "parameters"),
    (b"parameters = [\"1400:31\", 5]", "parameters"),
    (b"parameters = [\"1400:3\"]", "parameters"),
    (b"parameters = [\"140:31\"]", "parameters"),
    (b"parameters = [\"1400 31\"]", "parameters"),
    (b"parameters = [\"14g0:31\"]", "parameters"),
    (b"validity_ms = 300", "validity_ms"),
    (b"a = 1\npriority = 4", "priority"),
];

#[test]
fn names_the_first_faulty_key(rt: HostRuntime) {
    for (text, wanted) in &FAULTY {
        match fields_of(rt.alloc(), *text) {
            Err(InputFault::BadKey(key, _value)) => same(&rt, key.as_str(), *wanted),
            _ => panic!(rt; "no fault of a key"),
        }
    }
}

#[test]
fn takes_each_form_of_a_time(rt: HostRuntime) {
    let texts = [
        b"schedule = \"991231235959948+\"".as_slice(),
        b"schedule = \"000101000000000-\"".as_slice(),
        b"schedule = \"991231235959900R\"".as_slice(),
        b"validity = \"\"".as_slice(),
    ];
    for text in &texts {
        drop(fields_in(&rt, *text));
    }
}

// The text that is shown of parameters, with its number; 0 for a list of good ones.
fn want_shown(rt: &(impl AllocGlobal + Abort), text: &[u8], number: usize, shown: &str) {
    let value = match fields_of(rt.alloc(), text) {
        Err(InputFault::BadKey(_key, value)) => value,
        _ => panic!(rt; "no fault of a key"),
    };
    match value {
        ConfigValue::BadText(place, text) => {
            same(rt, place, number);
            same(rt, text.as_str(), shown);
        }
        ConfigValue::Texts => same(rt, number, 0),
        _ => panic!(rt; "another value"),
    }
}

// A list of one parameter with a value of so many octets.
fn long_list(rt: &(impl AllocGlobal + Abort), octets: usize) -> String {
    let mut text = String::new(rt.alloc());
    let Ok(()) = text.push_str("parameters = [\"1400:") else {
        panic!(rt; "no memory")
    };
    for _ in 0..octets {
        let Ok(()) = text.push_str("00") else {
            panic!(rt; "no memory")
        };
    }
    let Ok(()) = text.push_str("\"]") else {
        panic!(rt; "no memory")
    };
    text
}

#[test]
fn shows_the_first_bad_parameter(rt: HostRuntime) {
    want_shown(
        &rt,
        b"parameters = [\"1400:31\", \"14:31\", \"x\"]",
        2,
        "14:31",
    );
    let many = long_list(&rt, 1_021);
    want_shown(&rt, many.as_bytes(), 0, "");
    let most = long_list(&rt, 1_020);
    same(
        &rt,
        fields_in(&rt, most.as_bytes()).params.as_slice().len(),
        1,
    );
}
